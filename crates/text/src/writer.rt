// The table writer: three columns in, a line a row out. What it refuses is known before the first byte is written, so a
// refusal leaves the text space as it was.
ghost use Rattle.std.specs.Prelude.{◌≡◌, ◌&&◌, ◌+◌, ◌≤◌, length, eqb};
ghost use Rattle.text.specs.Layout.{line_bytes};
ghost use Rattle.text.specs.Print.{WrittenAt};
ghost use Rattle.text.specs.Table.{columns};
ghost use Rattle.text.specs.Writer.{table_line, table_text, LinesFit, TableWrites};

use crate::layout::{ACCOUNT_WIDTH, DAY_WIDTH, LINE_BYTES};
use crate::print::{write_bytes, write_field};

// Why nothing was written.
#[derive(Clone, Copy)]
pub enum WriteError {
    // 1: columns of different lengths.
    ColumnsDiffer,
    // 10: more bytes than the text space has.
    NoRoom,
}

// A row's line, by the routine that prints every field.
fn write_row(out: &mut [u8], at: usize, day: u16, first: u16, second: u16) -> usize
    requires { at + line_bytes ≤ length out.old }
    ensures { WrittenAt out.old at line_bytes (table_line day first second) result out.new }
{
    let a = write_field(out, at, DAY_WIDTH, day);
    let b = write_field(out, a, ACCOUNT_WIDTH, first);
    let c = write_field(out, b, ACCOUNT_WIDTH, second);
    write_bytes(out, c, b"\n")
}

// The lines of all rows, from the start of the text space.
fn write_lines(days: &[u16], first: &[u16], second: &[u16], text: &mut [u8]) -> usize
    requires { LinesFit (columns days.now first.now second.now) text.old }
    ensures { let bytes = table_text (columns days.now first.now second.now) in
        WrittenAt text.old 0 (length bytes) bytes result text.new }
{
    let mut at = 0;
    for i in 0..days.len() {
        at = write_row(text, at, days[i], first[i], second[i]);
    }
    at
}

fn one_length(days: usize, first: usize, second: usize) -> bool
    ensures { result ≡ (eqb days first && eqb first second) }
{
    days == first && first == second
}

// Writes three columns as a table's text, all of it or nothing. Whether it fits is asked by a quotient: eighteen times
// the rows may be more than a number holds.
pub fn write_table(
    days: &[u16],
    first: &[u16],
    second: &[u16],
    text: &mut [u8],
) -> Result<usize, WriteError>
    ensures { let c = columns days.now first.now second.now in
        TableWrites c text.old result text.new }
{
    if !one_length(days.len(), first.len(), second.len()) {
        return Err(WriteError::ColumnsDiffer);
    }
    if text.len() / LINE_BYTES < days.len() {
        return Err(WriteError::NoRoom);
    }
    let size = write_lines(days, first, second, text);
    Ok(size)
}
