// The line reader: a thin struct that keeps the text and the line reached, as 01 asks, and steps line by line. It leaves
// the work to `step_from`. `read_line` serves the loops, which need the line as a number: to see whether the reader
// moved, and as a row's place.
ghost use Rattle.std.specs.Prelude.{◌≡◌};
ghost use Rattle.text.specs.Line.{step_from};
ghost use Rattle.text.specs.Reader.{ReaderAt, Stepped};

use crate::lines::{LineError, Row, Step, step_from};

#[derive(Clone, Copy)]
pub struct LineReader<'a> {
    pub text: &'a [u8],
    pub line: usize,
}

impl<'a> LineReader<'a> {
    // A reader at a line of a text; the first is line 0.
    pub fn at(text: &'a [u8], line: usize) -> LineReader<'a>
        ensures { ReaderAt result text.entry line }
    {
        LineReader { text, line }
    }

    // One step: it gives what stands at the line reached, and the reader goes on to the next one where that is a row.
    // At the text's end and at a faulty line it stays.
    #[tactic(auto, unfolding(crate::specs::Line::step_from))]
    pub fn step(&mut self) -> Result<Option<Row>, LineError>
        ensures { Stepped self.old self.new result }
    {
        let s = step_from(self.text, self.line);
        self.line = s.line;
        s.found
    }
}

// A step from a line of a text, by a reader that is made here: what stands there, and the line reached then, from which
// the next step goes on.
#[tactic(auto, unfolding(crate::specs::Line::step_from))]
pub fn read_line(text: &[u8], line: usize) -> Step
    ensures { result ≡ step_from text.now line }
{
    let mut r = LineReader::at(text, line);
    let found = r.step();
    Step {
        found,
        line: r.line,
    }
}
