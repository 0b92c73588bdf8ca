// The checks that the calls on a query share, in the order of document 01. Lent buffers come in by their lengths.
ghost use Rattle.std.specs.Prelude.{◌≡◌, ◌≤◌, leb, eqb};
ghost use Rattle.rings.specs.Words.{◌and◌, no};
ghost use Rattle.rings.specs.Table.{table_of, size};
ghost use Rattle.rings.specs.TableCheck.{table_check};
ghost use Rattle.rings.specs.Checks.{◌when◌, ◌then◌, query_check, scratch_check};
ghost use Rattle.rings.specs.declared.refusal.Refusal.TheVariants.{BadLength, BadRange};

use crate::Query;
use crate::limits::{ADJACENCY, LAST_ACCOUNT, LAST_DAY};
use crate::refusal::Refusal;
use crate::table::check_table;

// 1 ≤ s ≤ e ≤ 1,024.
pub fn is_window(s: u16, e: u16) -> bool
    ensures { result ≡ (leb 1 s and leb s e and leb e 1024) }
{
    (1 <= s) & (s <= e) & (e <= LAST_DAY)
}

// 1 ≤ Ts ≤ s ≤ Te ≤ 1,024.
pub(crate) fn is_start(ts: u16, s: u16, te: u16) -> bool
    ensures { result ≡ (leb 1 ts and leb ts s and leb s te and leb te 1024) }
{
    (1 <= ts) & (ts <= s) & (s <= te) & (te <= LAST_DAY)
}

// Two pairs of lengths are equal.
pub fn are_equal(a: usize, b: usize, c: usize, d: usize) -> bool
    ensures { result ≡ (eqb a b and eqb c d) }
{
    (a == b) & (c == d)
}

// 6, 7, 8, 9 on numbers alone.
fn check_numbers(
    rows: usize,
    query: Query,
    window: bool,
    lengths: bool,
    scratch: usize,
) -> Result<(), Refusal>
    requires { rows ≤ 16384 }
    ensures { result ≡ (
        query_check query then BadRange when no window then BadLength when no lengths then scratch_check rows scratch) }
{
    let k = query.k;
    if k < 1 {
        return Err(Refusal::BadK);
    }
    if LAST_ACCOUNT < k {
        return Err(Refusal::BadK);
    }
    if !window {
        return Err(Refusal::BadRange);
    }
    if !lengths {
        return Err(Refusal::BadLength);
    }
    if scratch < ADJACENCY + 4 * rows {
        return Err(Refusal::Scratch);
    }
    Ok(())
}

// The table, then 6, 7, 8, 9.
pub fn check_call(
    days: &[u16],
    first: &[u16],
    second: &[u16],
    query: Query,
    window: bool,
    lengths: bool,
    scratch: usize,
) -> Result<(), Refusal>
    ensures { let t = table_of days.now first.now second.now in
        result ≡ (table_check t then query_check query then BadRange when no window then BadLength when no lengths
        then scratch_check (size t) scratch) }
{
    check_table(days, first, second)?;
    check_numbers(days.len(), query, window, lengths, scratch)
}
