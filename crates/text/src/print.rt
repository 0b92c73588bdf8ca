// Printing into a lent slice. A call writes all of its bytes or none, and keeps every byte around them.
ghost use Rattle.std.specs.Prelude.{◌≡◌, ◌&&◌, ◌+◌, ◌/◌, ◌%◌, ◌^◌, ◌≤◌, ◌<◌, length, set, replicate, leb, ltb};
ghost use Rattle.text.specs.Layout.{most_digits, entry_bytes, refused_bytes};
ghost use Rattle.text.specs.Print.{column_of, printed, fits, pasted, header, listing_line, refused_line};
ghost use Rattle.text.specs.Print.{BlankAt, WrittenAt, Puts, PutsField};

use crate::decimal::place;
use crate::layout::{
    DAY_WIDTH, ENTRY_BYTES, MOST_DIGITS, NUMBER_WIDTH, PLACE_WIDTH, REFUSED_BYTES, ROWS_WIDTH,
};

// A number without its last k digits.
fn quotient(k: usize, n: u16) -> u64
    ensures { result ≡ n / 10 ^ k }
{
    if MOST_DIGITS <= k {
        return 0;
    }
    n as u64 / place(k)
}

// The byte of the digit at place k. The digits before it are taken off by the next quotient, which the column before
// has worked out: a remainder would be one more division.
fn digit(k: usize, n: u16) -> u8
    requires { k < most_digits }
    ensures { result ≡ 48 + n / 10 ^ k % 10 }
{
    b'0' + (quotient(k, n) - 10 * quotient(k + 1, n)) as u8
}

// A number fits a field: there is a column, and no digit is lost. So the column of place k is blank where the number
// fits the k columns behind it, and the units always stand.
fn fits_in(width: usize, n: u16) -> bool
    ensures { result ≡ fits width n }
{
    0 < width && (MOST_DIGITS <= width || (n as u64) < place(width))
}

// `size` bytes fit from `at` on.
fn has_room(len: usize, at: usize, size: usize) -> bool
    ensures { result ≡ leb (at + size) len }
{
    size <= len && at <= len - size
}

pub(crate) fn write_bytes(out: &mut [u8], at: usize, bytes: &[u8]) -> usize
    requires { at + length bytes.now ≤ length out.old }
    ensures { WrittenAt out.old at (length bytes.now) bytes.now result out.new }
{
    let next = at + bytes.len();
    out[at..next].copy_from_slice(bytes);
    next
}

// The column of place k, where a blank stands.
fn write_column(field: &mut [u8], at: usize, k: usize, n: u16)
    requires { BlankAt field.old at }
    ensures { field.new ≡ set field.old at (column_of k n) }
{
    if !fits_in(k, n) {
        field[at] = digit(k, n);
    }
}

// A number over the whole field. Blanks first, many at a time; then the digits that there are.
// Not by the library's `{:>5}`: tried, and a table's text took over four times as long, past the bar of speed.
fn print_field(field: &mut [u8], n: u16)
    ensures { field.new ≡ printed (length field.old) n }
{
    field.fill(b' ');
    for j in 0..field.len() {
        write_column(field, j, field.len() - 1 - j, n);
    }
}

pub(crate) fn write_field(out: &mut [u8], at: usize, width: usize, n: u16) -> usize
    requires { at + width ≤ length out.old }
    ensures { WrittenAt out.old at width (printed width n) result out.new }
{
    let next = at + width;
    print_field(&mut out[at..next], n);
    next
}

fn write_line(out: &mut [u8], at: usize, start: u16, end: u16, span: u16, rows: u16) -> usize
    requires { at + entry_bytes ≤ length out.old }
    ensures { WrittenAt out.old at entry_bytes (listing_line start end span rows) result out.new }
{
    let a = write_field(out, at, DAY_WIDTH, start);
    let b = write_field(out, a, DAY_WIDTH, end);
    let c = write_field(out, b, DAY_WIDTH, span);
    let d = write_field(out, c, ROWS_WIDTH, rows);
    write_bytes(out, d, b"\n")
}

fn write_refused(out: &mut [u8], number: u16, line: u16) -> usize
    requires { refused_bytes ≤ length out.old }
    ensures { WrittenAt out.old 0 refused_bytes (refused_line number line) result out.new }
{
    let a = write_bytes(out, 0, b"refused");
    let b = write_field(out, a, NUMBER_WIDTH, number);
    let c = write_field(out, b, PLACE_WIDTH, line);
    write_bytes(out, c, b"\n")
}

// A number, right-justified in `width` columns.
pub fn put_field(out: &mut [u8], at: usize, width: usize, n: u16) -> Option<usize>
    ensures { PutsField out.old at width n result out.new }
{
    if !fits_in(width, n) {
        return None;
    }
    if !has_room(out.len(), at, width) {
        return None;
    }
    Some(write_field(out, at, width, n))
}

// The listing's first line, at the start.
pub fn put_header(out: &mut [u8]) -> Option<usize>
    ensures { Puts out.old 0 header result out.new }
{
    if !has_room(out.len(), 0, ENTRY_BYTES) {
        return None;
    }
    Some(write_bytes(out, 0, b"start  end span  rows\n"))
}

// A line of the listing.
pub fn put_line(
    out: &mut [u8],
    at: usize,
    start: u16,
    end: u16,
    span: u16,
    rows: u16,
) -> Option<usize>
    ensures { Puts out.old at (listing_line start end span rows) result out.new }
{
    if !has_room(out.len(), at, ENTRY_BYTES) {
        return None;
    }
    Some(write_line(out, at, start, end, span, rows))
}

// The line of a refusal, at the start.
pub fn put_refused(out: &mut [u8], number: u16, line: u16) -> Option<usize>
    ensures { Puts out.old 0 (refused_line number line) result out.new }
{
    if !has_room(out.len(), 0, REFUSED_BYTES) {
        return None;
    }
    Some(write_refused(out, number, line))
}
