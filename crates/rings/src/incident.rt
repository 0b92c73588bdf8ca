// One step of a walk over the rows of an account, for every loop that makes such a walk: what stands at a place of
// the adjacency.
ghost use Rattle.std.specs.Prelude.{◌≡◌, ◌+◌, get_or};
ghost use Rattle.rings.specs.Payments.{table};
ghost use Rattle.rings.specs.Inner.Incident.{PlaceStands, RowStands, RowRead};

use crate::limits::ADJACENCY;
use crate::pairs::other;
use crate::payments::Payments;
use crate::slices::entry;

// A row as a walk over the rows of one of its accounts meets it: the row, its day, its other account,
// and, for a row at lo or later, whether it is the first of its pair from lo on, so that it brings a new neighbour.
#[derive(Clone, Copy)]
pub struct Incident {
    pub row: usize,
    pub day: u16,
    pub other: usize,
    pub leads: bool,
}

// The day of the row that stands at place p of the adjacency. A walk that may end there asks for it alone: what it
// does not read in vain keeps no register from the rest of its loop.
pub(crate) fn day_at(days: &[u16], scratch: &[u16], p: usize) -> u16
    requires { PlaceStands days.now scratch.now p }
    ensures { result ≡ get_or days.now (get_or scratch.now (8192 + p) 0) 0 }
{
    let here = entry(scratch, ADJACENCY + p);
    days[here]
}

// The row of u that stands at place p of the adjacency. It is inlined: a loop that uses some of the fields reads no
// more than these.
pub(crate) fn row_at(
    payments: Payments<'_>,
    scratch: &[u16],
    lo: usize,
    u: usize,
    p: usize,
) -> Incident
    requires { RowStands (table payments) scratch.now u p }
    ensures { let t = table payments.entry in
        RowRead t scratch.now lo u p result }
{
    let n = payments.days.len();
    let row = entry(scratch, ADJACENCY + p);
    let day = payments.days[row];
    let a = entry(payments.first, row);
    let b = entry(payments.second, row);
    let v = other(a, b, u);
    let earlier = entry(scratch, ADJACENCY + 2 * n + row);
    Incident {
        row: row,
        day: day,
        other: v,
        leads: earlier <= lo,
    }
}
