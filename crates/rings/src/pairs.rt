// Pairs of accounts: the other account of a row, and each row's earlier row of its pair, kept in the scratch.
// A row leads in a window where it is the first of its pair there: of a pair's rows one makes it count.
// Rows whose pairs have the same slot are chained, each to the one before it. The places of cursors and heads serve
// as slots,
// and those of the earlier rows as chains: so the earlier rows come before the adjacency.
ghost use Rattle.std.specs.Prelude.{◌≡◌, ◌&&◌, ◌+◌, ◌*◌, ◌≤◌, length, get_or, eqb};
ghost use Rattle.rings.specs.Payments.{table};
ghost use Rattle.rings.specs.Table.{size};
ghost use Rattle.rings.specs.Sound.{Sound};
ghost use Rattle.rings.specs.Inner.Adjacency.{AccountEnds, AccountPair, SlotFound, InColumns, Emptied, Chained, Pairing, Paired, pick_other};
ghost use Rattle.rings.specs.Inner.Peeling.{EarlierStands, leads_by};

use crate::limits::ADJACENCY;
use crate::payments::Payments;
use crate::slices::{entry, put};

// A prime that spreads the pairs over the slots.
const SPREAD: usize = 1301;

// The account of a payment between a and b that is not u, which is one of them.
// A sum and no branch: u is the first as often as the second, so a walk would guess wrong half the time.
pub(crate) fn other(a: usize, b: usize, u: usize) -> usize
    requires { AccountEnds a b u }
    ensures { result ≡ pick_other (eqb a u) a b }
{
    a + b - u
}

// Row i is a payment between a and b.
fn is_pair(first: &[u16], second: &[u16], i: usize, a: usize, b: usize) -> bool
    requires { InColumns first.now second.now i }
    ensures { result ≡ (eqb (get_or first.now i 0) a && eqb (get_or second.now i 0) b) }
{
    let x = entry(first, i);
    let y = entry(second, i);
    (x == a) & (y == b)
}

// The slot of a pair, one of 8,192. Pairs may share one: a slot only says where to search.
fn slot_of(a: usize, b: usize) -> usize
    requires { AccountPair a b }
    ensures { SlotFound a b result }
{
    (a * SPREAD + b) % ADJACENCY
}

// The slots are empty.
pub(crate) fn clear_slots(scratch: &mut [u16])
    requires { 8192 ≤ length scratch.old }
    ensures { Emptied scratch.old scratch.new }
{
    scratch[..ADJACENCY].fill(0);
}

// Each row with the row before it whose pair has the same slot.
fn chain_rows(payments: Payments<'_>, scratch: &mut [u16])
    requires { Chained (table payments) 0 scratch.old }
    ensures { let t = table payments.entry in
        Chained t (size t) scratch.new }
{
    let n = payments.days.len();
    for j in 0..n {
        let a = entry(payments.first, j);
        let b = entry(payments.second, j);
        let h = slot_of(a, b);
        let last = entry(scratch, h);
        put(scratch, ADJACENCY + 2 * n + j, last);
        put(scratch, h, j + 1);
    }
}

// The earlier row of each row's pair. The rows of its chain are searched, and the search is left when one of the pair
// is found: by a label, as 01 asks.
// From the last row on, so that the chains of the rows before it are still there.
fn find_pairs(payments: Payments<'_>, scratch: &mut [u16])
    requires { let t = table payments in Pairing t (size t) scratch.old }
    ensures { let t = table payments.entry in
        Pairing t 0 scratch.new }
{
    let n = payments.days.len();
    'rows: for j in (0..n).rev() {
        let a = entry(payments.first, j);
        let b = entry(payments.second, j);
        let mut p = entry(scratch, ADJACENCY + 2 * n + j);
        // a `while`, as it goes from row to row by what each one's place holds
        while 0 < p {
            let i = p - 1;
            if is_pair(payments.first, payments.second, i, a, b) {
                put(scratch, ADJACENCY + 2 * n + j, p);
                continue 'rows;
            }
            p = entry(scratch, ADJACENCY + 2 * n + i);
        }
        put(scratch, ADJACENCY + 2 * n + j, 0);
    }
}

// The earlier rows of an accepted table, in a scratch of any contents.
pub(crate) fn pair_rows(payments: Payments<'_>, scratch: &mut [u16])
    requires { 8192 + 4 * length payments.days.now ≤ length scratch.old }
    ensures { let t = table payments.entry in
        Paired t scratch.new }
{
    clear_slots(scratch);
    chain_rows(payments, scratch);
    find_pairs(payments, scratch);
}

// Row j is the first of its pair from row lo on: it brings a new neighbour.
pub(crate) fn leads(scratch: &[u16], n: usize, lo: usize, j: usize) -> bool
    requires { EarlierStands scratch.now n j }
    ensures { result ≡ leads_by scratch.now n lo j }
{
    let earlier = entry(scratch, ADJACENCY + 2 * n + j);
    (lo <= j) & (earlier <= lo)
}
