// Text of tables and listings: fixed decimal fields, lines, printing, the table reader and the table writer.
#![tactic(auto)]

mod decimal;
mod layout;
mod lines;
mod print;
mod reader;
mod report;
mod table;
mod writer;

pub use decimal::{FieldError, read_field};
pub use layout::{ENTRY_BYTES, MOST_INPUT, MOST_ROWS, QUERY_BYTES, REFUSED_BYTES};
pub use lines::{LineError, Query, Row, Step, read_query};
pub use print::{put_field, put_header, put_line, put_refused};
pub use reader::{LineReader, read_line};
pub use report::{Report, report_query, report_table, report_written};
pub use table::{ReadError, read_table};
pub use writer::{WriteError, write_table};
