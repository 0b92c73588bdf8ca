// What the reader and the writer tell a host in numbers: 01's refusal number, 0 for none; its line, counted from 1, 0
// where there is none; the rows read or the bytes written. As the C interface hands them out.
ghost use Rattle.std.specs.Prelude.{◌≡◌};
ghost use Rattle.text.specs.Report.{table_report, query_report, written_report};

use crate::lines::{LineError, Query};
use crate::table::ReadError;
use crate::writer::WriteError;

#[derive(Clone, Copy)]
pub struct Report {
    pub number: u32,
    pub place: usize,
    pub count: usize,
}

// 01's numbers of these refusals, by the words of the variants.
const COLUMNS_DIFFER: u32 = 1;

const NO_ROOM: u32 = 10;

const BAD_LINE: u32 = 11;

const BAD_FIELD: u32 = 12;

const BAD_NUMBER: u32 = 13;

fn refused(number: u32, place: usize) -> Report
    ensures { result ≡ record { number = number; place = place; count = 0 } }
{
    Report {
        number,
        place,
        count: 0,
    }
}

// Of a table's text.
pub fn report_table(read: Result<usize, ReadError>) -> Report
    ensures { result ≡ table_report read }
{
    match read {
        Ok(count) => Report {
            number: 0,
            place: 0,
            count,
        },
        Err(ReadError::BadLine(line)) => refused(BAD_LINE, line),
        Err(ReadError::BadField(line)) => refused(BAD_FIELD, line),
        Err(ReadError::BadNumber(line)) => refused(BAD_NUMBER, line),
        Err(ReadError::NoRoom) => refused(NO_ROOM, 0),
    }
}

// Of a query line: it stands in line 1.
pub fn report_query(read: Result<Query, LineError>) -> Report
    ensures { result ≡ query_report read }
{
    match read {
        Ok(_) => refused(0, 0),
        Err(LineError::BadLine) => refused(BAD_LINE, 1),
        Err(LineError::BadField) => refused(BAD_FIELD, 1),
        Err(LineError::BadNumber) => refused(BAD_NUMBER, 1),
    }
}

// Of a table's text that is written.
pub fn report_written(written: Result<usize, WriteError>) -> Report
    ensures { result ≡ written_report written }
{
    match written {
        Ok(n) => Report {
            number: 0,
            place: 0,
            count: n,
        },
        Err(WriteError::ColumnsDiffer) => refused(COLUMNS_DIFFER, 0),
        Err(WriteError::NoRoom) => refused(NO_ROOM, 0),
    }
}
