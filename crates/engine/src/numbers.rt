// An answer as the numbers that a host gets. What they are is defined with the answers, in the parts below.
ghost use Rattle.std.specs.Prelude.{◌≡◌, ℕ, MatchResult, Err};
ghost use Rattle.rings.specs.Refusals.{place_number, done, refused};
ghost use Rattle.engine.specs.Numbers.{refused_report, read_report, written_report, numbers};

use listing::{Listed, Refused};
use rings::{Place, Refusal};
use text::{ReadError, Report, WriteError, report_table, report_written};

// The refusal's number, 0 for none; its place; the count, 0 on a refusal. include/rumbleog.h says so.
#[derive(Clone, Copy)]
pub struct Numbers {
    pub number: u32,
    pub place: u64,
    pub count: u64,
}

// What a call counts that is not refused.
pub trait Count {
    ghost counted: { Self → ℕ };

    fn count(self) -> u64
        ensures { result ≡ counted self };
}

// Table check, Core times, Recall.
impl Count for () {
    ghost counted = { λ _. 0 };

    fn count(self) -> u64 {
        0
    }
}

// Rows, entries, groups, bytes.
impl Count for usize {
    ghost counted = { λ n. n };

    fn count(self) -> u64 {
        self as u64
    }
}

// Listing.
impl Count for Listed {
    ghost counted = { λ l. l.count };

    fn count(self) -> u64 {
        self.count as u64
    }
}

impl<T: Count, E: Into<Numbers>> From<Result<T, E>> for Numbers {
    ghost from_gives = { λ a n. MatchResult a (λ x. n ≡ numbers (done (T.counted x))) (λ e. E.converts e n) };

    fn from(answer: Result<T, E>) -> Numbers {
        match answer {
            Ok(x) => Numbers {
                number: 0,
                place: 0,
                count: x.count(),
            },
            Err(e) => e.into(),
        }
    }
}

// No From: a place is declared in rings, and u64 in no crate of these.
fn place_number(place: Option<Place>) -> u64
    ensures { result ≡ place_number place }
{
    match place {
        None => 0,
        Some(Place::Row(row)) => row as u64,
        Some(Place::Entry(entry)) => entry as u64,
    }
}

impl From<Refusal> for Numbers {
    ghost from_gives = { λ r n. n ≡ numbers (refused r) };

    fn from(r: Refusal) -> Numbers {
        Numbers {
            number: r.number(),
            place: place_number(r.place()),
            count: 0,
        }
    }
}

// The listing program.
impl From<Refused> for Numbers {
    ghost from_gives = { λ r n. n ≡ numbers (refused_report r) };

    fn from(r: Refused) -> Numbers {
        Numbers {
            number: r.number,
            place: r.line as u64,
            count: 0,
        }
    }
}

// What text tells in numbers.
impl From<Report> for Numbers {
    ghost from_gives = { λ t n. n ≡ record { number = t.number; place = t.place; count = t.count } };

    fn from(told: Report) -> Numbers {
        Numbers {
            number: told.number,
            place: told.place as u64,
            count: told.count as u64,
        }
    }
}

// The table reader.
impl From<ReadError> for Numbers {
    ghost from_gives = { λ e n. n ≡ numbers (read_report (Err e)) };

    fn from(e: ReadError) -> Numbers {
        Numbers::from(report_table(Err(e)))
    }
}

// The table writer.
impl From<WriteError> for Numbers {
    ghost from_gives = { λ e n. n ≡ numbers (written_report (Err e)) };

    fn from(e: WriteError) -> Numbers {
        Numbers::from(report_written(Err(e)))
    }
}
