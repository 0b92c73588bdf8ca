// The rows of a window, and marks for them.
ghost use Rattle.std.specs.Prelude.{◌≡◌, ◌<◌};
ghost use Rattle.rings.specs.Sound.{NeverFall};
ghost use Rattle.groups.specs.Inner.{Between, Lent, at_most};

use rings::rows_before;

// A mark for each row of the longest table, and one more.
pub(crate) const MARKS: usize = 16385;

// The rows from lo to before end: days never fall, so those of a window stand side by side.
// No Range: a ring goes by value from call to call, and a Range isn't Copy.
// No slices of the columns: a row's number is the table's, in the code as in the definitions.
#[derive(Clone, Copy)]
pub(crate) struct Rows {
    pub lo: usize,
    pub end: usize,
}

// A ring of an accepted table: a mark for each row, and the rows of its window, outside which no row is marked.
#[derive(Clone, Copy)]
pub(crate) struct Ring<'a> {
    pub days: &'a [u16],
    pub first: &'a [u16],
    pub second: &'a [u16],
    pub marks: &'a [u8],
    pub rows: Rows,
    ghost lent: { Lent days.now first.now second.now marks.now rows },
}

// The rows of the window [s, e].
pub(crate) fn window_rows(days: &[u16], s: u16, e: u16) -> Rows
    requires never_fall { NeverFall days.now }
    requires e_bound { e < 65535 }
    ensures { Between days.now s e result }
{
    Rows {
        lo: rows_before(days, s),
        end: rows_before(days, e + 1),
    }
}

// As many marks for the ring as a lent column has places. A column that is too long for every table gets marks that are
// too long for every table: so Window ring judges the one by the other.
pub(crate) fn places_for(n: usize) -> usize
    ensures { result ≡ at_most n }
{
    n.min(MARKS)
}
