// The listing program's work on bytes: input text in, listing text or a refusal out.
ghost use Rattle.std.specs.Prelude.{◌≡◌, ◌≤◌, length};
ghost use Rattle.rings.specs.Refusals.{place_number, place_of};
ghost use Rattle.rings.specs.Table.{table_of as columns};
ghost use Rattle.text.specs.Layout.{entry_bytes, most_rows, most_input};
ghost use Rattle.text.specs.Table.{place};
ghost use Rattle.text.specs.Print.{pasted};
ghost use Rattle.listing.specs.Program.{found, place_line, reader_line, listed, outcome};
ghost use Rattle.listing.specs.ProgramText.{refused_of, list_answer, list_output};
ghost use Rattle.listing.specs.ProgramSteps.{Readable, unread, bad_line, Asks, Rising, text_columns, entries_of, ring_lines, Printable, Prints};

use crate::Refused;
use crate::list::list_rings;
use rings::{Place, Query, Refusal};
use text::{
    ENTRY_BYTES, LineError, MOST_INPUT, MOST_ROWS, QUERY_BYTES, ReadError, put_header, put_line,
    read_query, read_table, report_query, report_table,
};

// The program's columns hold the listing of 2,048 rings. Its scratch is what rings asks for with 1,024 rows (9). The
// text of 2,048 rings is 45,078 bytes. The definitions are most_listed, program_scratch (specs/Program.antt) and
// most_output (specs/ProgramText.antt).
const MOST_LISTED: usize = 2048;

const SCRATCH: usize = 8192 + 4 * MOST_ROWS;

pub const MOST_OUTPUT: usize = ENTRY_BYTES * (MOST_LISTED + 1);

// What an input asks for: the listing of a query over so many rows.
#[derive(Clone, Copy)]
pub struct Asked {
    pub query: Query,
    pub ts: u16,
    pub te: u16,
    pub count: usize,
}

// The input line of a place of rings: row 0 stands in input line 2. No Option: 01 prints 0 where there is none.
fn place_line(place: Option<Place>) -> usize
    requires { place_number place ≤ most_rows }
    ensures { result ≡ place_line place }
{
    match place {
        Some(Place::Row(row)) => row + 2,
        None | Some(Place::Entry(_)) => 0,
    }
}

// A refusal of rings: its number, and its input line or 0. No `From`: a row must not be too large for its line.
fn refused(r: Refusal) -> Refused
    requires { place_of r ≤ most_rows }
    ensures { result ≡ refused_of r }
{
    Refused {
        number: r.number(),
        line: place_line(r.place()),
    }
}

// The input line of the reader's line: its line 1 is input line 2, and 0 is no line, as 01 tells and prints it.
fn reader_line(line: usize) -> usize
    requires { line ≤ most_input }
    ensures { result ≡ reader_line line }
{
    if line == 0 { 0 } else { line + 1 }
}

// A refusal of the reader, as the program tells it. No `From`: a line must not be too large for the one it is moved to.
fn unread(e: ReadError) -> Refused
    requires { place (Err e) ≤ most_input }
    ensures { result ≡ unread e }
{
    let told = report_table(Err(e));
    Refused {
        number: told.number,
        line: reader_line(told.place),
    }
}

// A query line that is refused.
impl From<LineError> for Refused {
    ghost from_gives = { λ e r. r ≡ bad_line e };

    fn from(e: LineError) -> Refused {
        let told = report_query(Err(e));
        Refused {
            number: told.number,
            line: told.place,
        }
    }
}

// The query line, then the rows, into columns that hold as many as an input can have.
fn read_input(
    input: &[u8],
    days: &mut [u16],
    first: &mut [u16],
    second: &mut [u16],
) -> Result<Asked, Refused>
    requires { Readable input.now days.old first.old second.old }
    ensures { Asks (outcome input.now) result days.new first.new second.new }
{
    let query = read_query(input)?;
    let count = read_table(&input[QUERY_BYTES..], days, first, second).map_err(unread)?;
    Ok(Asked {
        query: Query { k: query.k },
        ts: query.from,
        te: query.to,
        count,
    })
}

// The lines of the entries, behind the header. No Display: the columns of a line are 01's, and the output is lent.
fn write_lines(starts: &[u16], ends: &[u16], rows: &[u16], output: &mut [u8])
    requires { Printable (text_columns starts.now ends.now rows.now) (length starts.now) output.old }
    ensures { let c = text_columns starts.now ends.now rows.now in
        output.new ≡ pasted output.old entry_bytes (ring_lines (entries_of c)) }
{
    for i in 0..starts.len() {
        let at = ENTRY_BYTES * (i + 1);
        let start = starts[i];
        let end = ends[i];
        put_line(output, at, start, end, end - start + 1, rows[i]);
    }
}

// The text of the entries, all of it or nothing. The header is as long as an entry.
#[tactic(auto, unfolding(rings::specs::Refusals::place_of))]
fn write_listing(
    starts: &[u16],
    ends: &[u16],
    rows: &[u16],
    output: &mut [u8],
) -> Result<usize, Refused>
    requires { Rising (text_columns starts.now ends.now rows.now) (length starts.now) }
    ensures { let o = found (entries_of (text_columns starts.now ends.now rows.now)) in
        Prints o result output.old output.new }
{
    let size = ENTRY_BYTES * (starts.len() + 1);
    if output.len() < size {
        return Err(refused(Refusal::NoRoom));
    }
    put_header(output);
    write_lines(starts, ends, rows, output);
    Ok(size)
}

// The listing of a table and a query, as text.
fn print_rings(
    days: &[u16],
    first: &[u16],
    second: &[u16],
    query: Query,
    ts: u16,
    te: u16,
    output: &mut [u8],
) -> Result<usize, Refused>
    requires { length days.now ≤ most_rows }
    ensures { let o = listed (columns days.now first.now second.now) query ts te in
        Prints o result output.old output.new }
{
    let mut starts = [0u16; MOST_LISTED];
    let mut ends = [0u16; MOST_LISTED];
    let mut rows = [0u16; MOST_LISTED];
    let mut windows = [0u32; MOST_LISTED];
    let mut scratch = [0u16; SCRATCH];
    let listed = list_rings(
        days,
        first,
        second,
        query,
        ts,
        te,
        &mut starts,
        &mut ends,
        &mut rows,
        &mut windows,
        &mut scratch,
    )
    .map_err(refused)?;
    let count = listed.count;
    write_listing(&starts[..count], &ends[..count], &rows[..count], output)
}

// Lists the rings that an input text asks for.
#[tactic(auto, unfolding(rings::specs::Refusals::place_of))]
pub fn list_text(input: &[u8], output: &mut [u8]) -> Result<usize, Refused>
    ensures value { result ≡ list_answer (outcome input.now) (length output.old) }
    ensures output_after { output.new ≡ list_output result (outcome input.now) output.old }
{
    if MOST_INPUT < input.len() {
        return Err(refused(Refusal::TooLarge));
    }
    let mut days = [0u16; MOST_ROWS];
    let mut first = [0u16; MOST_ROWS];
    let mut second = [0u16; MOST_ROWS];
    let asked = read_input(input, &mut days, &mut first, &mut second)?;
    let count = asked.count;
    print_rings(
        &days[..count],
        &first[..count],
        &second[..count],
        asked.query,
        asked.ts,
        asked.te,
        output,
    )
}
