// How lines are laid out: 01's widths, limits and sizes, each once. The definitions have them in specs/Layout.antt.

// A field of a line: how many columns it has, and the largest number that it may hold.
#[derive(Clone, Copy)]
pub(crate) struct Format {
    pub width: usize,
    pub limit: u16,
}

// The three fields of a line.
#[derive(Clone, Copy)]
pub(crate) struct Layout {
    pub first: Format,
    pub second: Format,
    pub third: Format,
}

// The largest number of a field, and how many digits a number of 16 bits has at most.
const LARGEST: u16 = 65535;

pub(crate) const MOST_DIGITS: usize = 5;

// The widths of a table's line, of the query line, of a listing's line and of the line of a refusal.
pub(crate) const DAY_WIDTH: usize = 5;

pub(crate) const ACCOUNT_WIDTH: usize = 6;

const QUERY_WIDTH: usize = 5;

pub(crate) const ROWS_WIDTH: usize = 6;

pub(crate) const NUMBER_WIDTH: usize = 5;

pub(crate) const PLACE_WIDTH: usize = 6;

// A line of a table: day, account, account.
const DAY: Format = Format {
    width: DAY_WIDTH,
    limit: LARGEST,
};

const ACCOUNT: Format = Format {
    width: ACCOUNT_WIDTH,
    limit: LARGEST,
};

pub(crate) const TABLE: Layout = Layout {
    first: DAY,
    second: ACCOUNT,
    third: ACCOUNT,
};

// The query line: k and the range's two days.
const QUERY_NUMBER: Format = Format {
    width: QUERY_WIDTH,
    limit: LARGEST,
};

pub(crate) const QUERY: Layout = Layout {
    first: QUERY_NUMBER,
    second: QUERY_NUMBER,
    third: QUERY_NUMBER,
};

// The bytes of each line, its byte 10 included: 18, 16, 22 and 19.
pub(crate) const LINE_BYTES: usize = DAY_WIDTH + ACCOUNT_WIDTH + ACCOUNT_WIDTH + 1;

pub const QUERY_BYTES: usize = QUERY_WIDTH + QUERY_WIDTH + QUERY_WIDTH + 1;

pub const ENTRY_BYTES: usize = DAY_WIDTH + DAY_WIDTH + DAY_WIDTH + ROWS_WIDTH + 1;

pub const REFUSED_BYTES: usize = 7 + NUMBER_WIDTH + PLACE_WIDTH + 1;

// The listing program's longest input: a query line and 1,024 lines of a table, in all 18,448 bytes.
pub const MOST_ROWS: usize = 1024;

pub const MOST_INPUT: usize = QUERY_BYTES + MOST_ROWS * LINE_BYTES;
