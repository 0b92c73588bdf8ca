// The head of each account: where a walk over its rows begins in the adjacency. At first that is its first row;
// from start to start it passes the rows that leave.
ghost use Rattle.std.specs.Prelude.{◌≡◌};
ghost use Rattle.rings.specs.Payments.{table};
ghost use Rattle.rings.specs.Sound.{Sound};
ghost use Rattle.rings.specs.Inner.Adjacency.{Adjacency, AdjacencyAtSomeDay, HeadInside, head_passed, HeadsAt};
ghost use Rattle.rings.specs.Inner.Adjacency.{HeadsMoved, PrunedInside, Passing, Leaving, HeadsPassed};

use crate::limits::{ACCOUNTS, ADJACENCY};
use crate::payments::Payments;
use crate::slices::{entry, put};

// The head of u passes a row.
fn pass_row(scratch: &mut [u16], u: usize)
    requires { HeadInside scratch.old u }
    ensures { scratch.new ≡ head_passed scratch.old u }
{
    let head = entry(scratch, ACCOUNTS + u);
    put(scratch, ACCOUNTS + u, head + 1);
}

// The heads go on from day s, whose first row is lo, to a later day, whose first row is next.
pub(crate) fn move_heads(
    payments: Payments<'_>,
    scratch: &mut [u16],
    s: u16,
    day: u16,
    lo: usize,
    next: usize,
)
    requires { HeadsAt (table payments) scratch.old s day lo next }
    ensures { let t = table payments.entry in
        HeadsMoved t day scratch.old scratch.new }
{
    for j in lo..next {
        let a = entry(payments.first, j);
        let b = entry(payments.second, j);
        pass_row(scratch, a);
        pass_row(scratch, b);
    }
}

// The heads go back to the first rows: each account's entries begin where those of the account before it end.
pub(crate) fn reset_heads(payments: Payments<'_>, scratch: &mut [u16])
    requires { AdjacencyAtSomeDay (table payments) scratch.old }
    ensures { let t = table payments.entry in
        Adjacency t 0 scratch.new }
{
    let mut from = 0;
    for u in 0..ACCOUNTS {
        let end = entry(scratch, u);
        put(scratch, ACCOUNTS + u, from);
        from = end;
    }
}

// The head of u passes row j if it stands there.
fn pass_head(scratch: &mut [u16], u: usize, j: usize)
    requires { PrunedInside scratch.old u }
    ensures { Passing u j scratch.old scratch.new }
{
    let last = entry(scratch, u);
    let place = entry(scratch, ACCOUNTS + u);
    if last <= place {
        return;
    }
    if entry(scratch, ADJACENCY + place) == j {
        put(scratch, ACCOUNTS + u, place + 1);
    }
}

// The rows from lo to next leave: the heads pass those that stand in the adjacency.
pub(crate) fn pass_heads(payments: Payments<'_>, scratch: &mut [u16], lo: usize, next: usize)
    requires { Leaving (table payments) scratch.old lo next }
    ensures { let t = table payments.entry in
        HeadsPassed t lo scratch.old next scratch.new }
{
    for row in lo..next {
        let a = entry(payments.first, row);
        let b = entry(payments.second, row);
        pass_head(scratch, a, row);
        pass_head(scratch, b, row);
    }
}
