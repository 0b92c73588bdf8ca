// Lines: the judgement of one line, and the line reader, which keeps the text and the line reached.
ghost use Rattle.std.specs.Prelude.{◌≡◌, ◌+◌, ◌≤◌, ◌<◌, ◌^◌, length, Err};
ghost use Rattle.text.specs.Layout.{bytes_of};
ghost use Rattle.text.specs.Decimal.{field_number, refuses};
ghost use Rattle.text.specs.Line.{lines_of, first_line, is_whole, any_refuses, judged, field_at, step_as, step_at, passed, step_from, query_of};

use crate::decimal::{FieldError, read_field};
use crate::layout::{Format, LINE_BYTES, Layout, QUERY, TABLE};

// A row of a table.
#[derive(Clone, Copy)]
pub struct Row {
    pub day: u16,
    pub first: u16,
    pub second: u16,
}

// What a query line asks for: k and the range's two days.
#[derive(Clone, Copy)]
pub struct Query {
    pub k: u16,
    pub from: u16,
    pub to: u16,
}

// A line's first fault.
#[derive(Clone, Copy)]
pub enum LineError {
    BadLine,
    BadField,
    BadNumber,
}

// What a step of the line reader finds at a line, its row or the text's end or the line's first fault, and the line
// that is reached then.
#[derive(Clone, Copy)]
pub struct Step {
    pub found: Result<Option<Row>, LineError>,
    pub line: usize,
}

fn is_broken(f: Result<u16, FieldError>) -> bool
    ensures { result ≡ refuses (field_number (Err FieldError.Broken)) f }
{
    matches!(f, Err(FieldError::Broken))
}

// The numbers of a line's three fields. A broken field in the line comes before a large one.
#[tactic(auto, unfolding(crate::specs::Line::judged))]
fn judge(
    x: Result<u16, FieldError>,
    y: Result<u16, FieldError>,
    z: Result<u16, FieldError>,
) -> Result<Option<(u16, u16, u16)>, LineError>
    ensures { result ≡ judged x y z }
{
    if let (Ok(a), Ok(b), Ok(c)) = (x, y, z) {
        return Ok(Some((a, b, c)));
    }
    if is_broken(x) || is_broken(y) || is_broken(z) {
        return Err(LineError::BadField);
    }
    Err(LineError::BadNumber)
}

// The first line of s is `width` bytes, the last of which is its byte 10.
#[tactic(auto, using(crate::proofs::SplitLaws::whole_rules))]
fn is_whole(s: &[u8], width: usize) -> bool
    requires { 0 < width }
    ensures { result ≡ is_whole width (first_line s.now) }
{
    if s.len() < width {
        return false;
    }
    let last = width - 1;
    !s[..last].contains(&b'\n') && s[last] == b'\n'
}

// The field that starts at byte `from` of s.
#[tactic(auto, using(crate::proofs::LineLaws::part_field))]
fn field_at(s: &[u8], from: usize, f: Format) -> Result<u16, FieldError>
    requires { from + f.width ≤ length s.now }
    ensures { result ≡ field_at f from s.now }
{
    let to = from + f.width;
    read_field(&s[from..to], f.limit)
}

// The first line of s, with fields as the layout has them; none at the text's end.
#[tactic(auto, using(crate::proofs::LineLaws::first_rules))]
fn first_as(s: &[u8], layout: Layout) -> Result<Option<(u16, u16, u16)>, LineError>
    requires { bytes_of layout ≤ 2 ^ 16 }
    ensures { result ≡ step_as layout (lines_of s.now) }
{
    if s.is_empty() {
        return Ok(None);
    }
    let Layout {
        first: a,
        second: b,
        third: c,
    } = layout;
    let x = a.width;
    let y = x + b.width;
    let z = y + c.width;
    if !is_whole(s, z + 1) {
        return Err(LineError::BadLine);
    }
    judge(field_at(s, 0, a), field_at(s, x, b), field_at(s, y, c))
}

// How many lines a step passes: a row is passed, and a reader stays at the text's end and at a faulty line.
fn passed(found: Result<Option<Row>, LineError>) -> usize
    ensures { result ≡ passed found }
{
    usize::from(matches!(found, Ok(Some(_))))
}

// Line `line` of a table's text, counted from 0, where each line before it has the bytes of a row.
#[tactic(auto, using(crate::proofs::LineLaws::step_past, crate::proofs::LineLaws::step_within))]
fn step_at(text: &[u8], line: usize) -> Result<Option<Row>, LineError>
    ensures { result ≡ step_at text.now line }
{
    if text.len() / LINE_BYTES < line {
        return Ok(None);
    }
    let at = LINE_BYTES * line;
    let numbers = first_as(&text[at..], TABLE)?;
    Ok(numbers.map(|(day, first, second)| Row { day, first, second }))
}

// A step from a line of a table's text: what stands there, judged once, and the line reached then.
#[tactic(auto, using(crate::proofs::LineLaws::step_fits), unfolding(crate::specs::Line::step_from))]
pub(crate) fn step_from(text: &[u8], line: usize) -> Step
    ensures { result ≡ step_from text.now line }
{
    let found = step_at(text, line);
    Step {
        found,
        line: line + passed(found),
    }
}

// The query line: the first line of the program's input.
#[tactic(auto, unfolding(crate::specs::Line::query_of))]
pub fn read_query(text: &[u8]) -> Result<Query, LineError>
    ensures { result ≡ query_of text.now }
{
    let (k, from, to) = first_as(text, QUERY)?.ok_or(LineError::BadLine)?;
    Ok(Query { k, from, to })
}
