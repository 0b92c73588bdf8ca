// The frame of one start: what is asked, the first day, the last day of the range, and the first row from the first
// day on.
ghost use Rattle.std.specs.Prelude.{◌≡◌, ◌<◌};
ghost use Rattle.rings.specs.Inner.Peeling.{next_frame};

use crate::Query;

// It goes by value through every inner function that works on a start. A hot leaf copies the numbers that it needs
// first.
#[derive(Clone, Copy)]
pub struct Frame {
    pub query: Query,
    pub start: u16,
    pub stop: u16,
    pub lo: usize,
}

// The frame of the start after this one, whose first row is lo.
pub(crate) fn next_frame(frame: Frame, lo: usize) -> Frame
    requires { frame.start < 65535 }
    ensures { result ≡ next_frame frame lo }
{
    let query = frame.query;
    Frame {
        query: query,
        start: frame.start + 1,
        stop: frame.stop,
        lo: lo,
    }
}
