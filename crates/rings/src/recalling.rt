// Recall: the rows of a minimal-window list whose window lies inside [s, e].
//     check_recall     the checks, in their order
//     mark_entries     the marks of an accepted list
//     recall           the call
ghost use Rattle.std.specs.Prelude.{◌≡◌, length, eqb};
ghost use Rattle.rings.specs.Words.{◌and◌, no, tabulate};
ghost use Rattle.rings.specs.Table.{table_of};
ghost use Rattle.rings.specs.Checks.{◌when◌, in_order, range_check};
ghost use Rattle.rings.specs.RecallCall.{columns_of, entry_check, recall_answer, recall_marks};
ghost use Rattle.rings.specs.Inner.Recalling.{dated, judged, EqualLists, Markable, marks_of};
ghost use Rattle.rings.specs.declared.refusal.Refusal.TheVariants.{BadLength};

use crate::checks::{are_equal, is_window};
use crate::limits::LAST_DAY;
use crate::refusal::Refusal;
use crate::slices::entry;
use crate::table::check_table;

// 8: three list columns of one length, and a mark for each row.
fn check_lengths(
    rows: usize,
    starts: usize,
    ends: usize,
    places: usize,
    n: usize,
) -> Result<(), Refusal>
    ensures { result ≡ (BadLength when no (eqb starts rows and eqb ends rows and eqb places n)) }
{
    if (starts == rows) & are_equal(ends, rows, places, n) {
        Ok(())
    } else {
        Err(Refusal::BadLength)
    }
}

// 7: a window.
fn check_window(s: u16, e: u16) -> Result<(), Refusal>
    ensures { result ≡ range_check s e }
{
    if is_window(s, e) {
        Ok(())
    } else {
        Err(Refusal::BadRange)
    }
}

// An entry of a list: its row, and the first day and the last of its window.
#[derive(Clone, Copy)]
struct Entry {
    row: u16,
    start: u16,
    end: u16,
}

// 14 of one entry: its row, its window, its place after the one before.
fn check_entry(days: &[u16], j: usize, before: Option<Entry>, here: Entry) -> Result<(), Refusal>
    ensures { result ≡ judged days.now j before here }
{
    let Entry { row, start, end } = here;
    if days.len() <= row as usize {
        return Err(Refusal::BadEntry(j));
    }
    let day = days[row as usize];
    if start < 1 {
        return Err(Refusal::BadEntry(j));
    }
    if day < start {
        return Err(Refusal::BadEntry(j));
    }
    if end < day {
        return Err(Refusal::BadEntry(j));
    }
    if LAST_DAY < end {
        return Err(Refusal::BadEntry(j));
    }
    let Some(last) = before else {
        return Ok(());
    };
    if last.row < row {
        return Ok(());
    }
    if last.row != row {
        return Err(Refusal::BadEntry(j));
    }
    if start <= last.start {
        return Err(Refusal::BadEntry(j));
    }
    if end <= last.end {
        return Err(Refusal::BadEntry(j));
    }
    Ok(())
}

// The first bad entry decides.
fn check_entries(days: &[u16], rows: &[u16], starts: &[u16], ends: &[u16]) -> Result<(), Refusal>
    requires { EqualLists (columns_of rows.now starts.now ends.now) }
    ensures { let c = columns_of rows.now starts.now ends.now in
        result ≡ in_order (tabulate (entry_check (dated days.now) c) 0 (length c.rows)) }
{
    let mut before = None;
    for j in 0..rows.len() {
        let here = Entry {
            row: rows[j],
            start: starts[j],
            end: ends[j],
        };
        check_entry(days, j, before, here)?;
        before = Some(here);
    }
    Ok(())
}

// The checks in their order: the table, 8, 14, 7.
fn check_recall(
    days: &[u16],
    first: &[u16],
    second: &[u16],
    rows: &[u16],
    starts: &[u16],
    ends: &[u16],
    s: u16,
    e: u16,
    places: usize,
) -> Result<(), Refusal>
    ensures { let t = table_of days.now first.now second.now in
        let c = columns_of rows.now starts.now ends.now in
        result ≡ recall_answer t c s e places }
{
    check_table(days, first, second)?;
    check_lengths(rows.len(), starts.len(), ends.len(), places, days.len())?;
    check_entries(days, rows, starts, ends)?;
    check_window(s, e)
}

// Each entry with a window inside [s, e] marks its row. The entries are columns, as the C interface lends them.
fn mark_entries(rows: &[u16], starts: &[u16], ends: &[u16], s: usize, e: usize, marks: &mut [u8])
    requires { Markable (columns_of rows.now starts.now ends.now) marks.old }
    ensures { let c = columns_of rows.now starts.now ends.now in
        marks.new ≡ marks_of c s e (length marks.old) }
{
    for i in 0..rows.len() {
        let row = entry(rows, i);
        let start = entry(starts, i);
        let end = entry(ends, i);
        if s <= start && end <= e {
            marks[row] = 1;
        }
    }
}

// Marks 1 each row with a listed window inside [s, e], 0 every other. A refusal leaves the marks as they were.
pub fn recall(
    days: &[u16],
    first: &[u16],
    second: &[u16],
    rows: &[u16],
    starts: &[u16],
    ends: &[u16],
    s: u16,
    e: u16,
    marks: &mut [u8],
) -> Result<(), Refusal>
    ensures result_value { let t = table_of days.now first.now second.now in
        let c = columns_of rows.now starts.now ends.now in
        result ≡ recall_answer t c s e (length marks.old) }
    ensures marks_after { let t = table_of days.now first.now second.now in
        let c = columns_of rows.now starts.now ends.now in
        marks.new ≡ recall_marks result t c s e marks.old }
{
    check_recall(days, first, second, rows, starts, ends, s, e, marks.len())?;
    marks.fill(0);
    mark_entries(rows, starts, ends, s as usize, e as usize, marks);
    Ok(())
}
