// The table reader: one pass that judges every line, and a second that writes the columns, so that a refusal leaves
// them as they were.
ghost use Rattle.std.specs.Prelude.{◌≡◌, length};
ghost use Rattle.text.specs.Line.{lines_of};
ghost use Rattle.text.specs.Table.{at_line, judged_from, columns, RowsFit, RowsWritten, TableReads};

use crate::lines::LineError;
use crate::reader::read_line;

// Why a table's text is refused. A line is counted from 1.
#[derive(Clone, Copy)]
pub enum ReadError {
    // 11: a line that is not 18 bytes, at that line.
    BadLine(usize),
    // 12: a field that is no right-justified number, at its line.
    BadField(usize),
    // 13: a number above 65,535, at its line.
    BadNumber(usize),
    // 10: more rows than the columns hold.
    NoRoom,
}

// A line's fault as the refusal of the text, with the line counted from 1.
fn at_line(line: usize, fault: LineError) -> ReadError
    ensures { result ≡ at_line line fault }
{
    match fault {
        LineError::BadLine => ReadError::BadLine(line),
        LineError::BadField => ReadError::BadField(line),
        LineError::BadNumber => ReadError::BadNumber(line),
    }
}

// The number of lines, or the lowest faulty one: the reader goes on until it stays, at the text's end or at a fault.
// That it moved is asked, and not what it found: so the processor goes on to the next line before this one is judged.
fn check_lines(text: &[u8]) -> Result<usize, ReadError>
    ensures { result ≡ judged_from 0 (lines_of text.now) }
{
    let mut line: usize = 0;
    loop {
        let step = read_line(text, line);
        if step.line == line {
            let found = step.found;
            return match found {
                Ok(_) => Ok(line),
                Err(fault) => Err(at_line(line + 1, fault)),
            };
        }
        line = step.line;
    }
}

// The rows of a text whose every line is a row, into columns that have a place for each.
fn write_rows(text: &[u8], rows: usize, days: &mut [u16], first: &mut [u16], second: &mut [u16])
    requires fit { RowsFit text.now (columns days.old first.old second.old) }
    requires all { rows ≡ length (lines_of text.now) }
    ensures { let old = columns days.old first.old second.old in
        let new = columns days.new first.new second.new in
        RowsWritten text.now old new }
{
    for i in 0..rows {
        let Ok(Some(row)) = read_line(text, i).found else {
            unreachable!();
        };
        days[i] = row.day;
        first[i] = row.first;
        second[i] = row.second;
    }
}

// Reads a table's text into three columns, all of it or nothing.
pub fn read_table(
    text: &[u8],
    days: &mut [u16],
    first: &mut [u16],
    second: &mut [u16],
) -> Result<usize, ReadError>
    ensures { let old = columns days.old first.old second.old in
        let new = columns days.new first.new second.new in
        TableReads text.now old result new }
{
    let n = check_lines(text)?;
    if days.len().min(first.len().min(second.len())) < n {
        return Err(ReadError::NoRoom);
    }
    write_rows(text, n, days, first, second);
    Ok(n)
}
