// The starts of a range, one after the other, with the core times of each and their day counts: what Listing walks.
// What the scratch and the arrays hold from call to call is a state that stays shut (specs/Starts.antt).
ghost use Rattle.std.specs.Prelude.{◌≡◌, ◌+◌, ◌*◌, ◌≤◌, length};
ghost use Rattle.rings.specs.Payments.{table};
ghost use Rattle.rings.specs.Sound.{Sound};
ghost use Rattle.rings.specs.Starts.{FirstAsks, StartAsks, ArrayLengths, Earliest, Prepared, TimesAt, AtStart};

use crate::adjacency::build_adjacency;
use crate::frame::{Frame, next_frame};
use crate::heads::{move_heads, pass_heads};
use crate::histogram::{count_times, drop_rows};
use crate::limits::NEVER;
use crate::pairs::pair_rows;
use crate::payments::Payments;
use crate::prune::prune;
use crate::settle::{peel_start, step};
pub use crate::table::{rows_before, rows_through};
use crate::times::row_time;

// Before the first start: the scratch, of any contents, is made ready.
pub fn prepare(payments: Payments<'_>, scratch: &mut [u16])
    requires { 8192 + 4 * length payments.days.now ≤ length scratch.old }
    ensures { Prepared (table payments.entry) scratch.new }
{
    pair_rows(payments, scratch);
}

// The times of a start and their counts, from nothing: the whole adjacency, a peel, and of the adjacency what is
// still of use.
pub fn first_start(
    payments: Payments<'_>,
    scratch: &mut [u16],
    frame: Frame,
    end: usize,
    times: &mut [u16],
    slack: &mut [u16],
    queue: &mut [u16],
    counts: &mut [u16],
)
    requires prepared { Prepared (table payments) scratch.old }
    requires first_asks { FirstAsks payments.days.now frame end }
    requires array_lengths { ArrayLengths times.old slack.old queue.old counts.old }
    ensures { let t = table payments.entry in
        AtStart t frame.query frame.stop frame.start frame.lo
        scratch.new times.new slack.new counts.new }
{
    build_adjacency(payments, scratch);
    move_heads(payments, scratch, 0, frame.start, 0, frame.lo);
    peel_start(payments, scratch, frame, end, times, slack, queue);
    count_times(payments, frame, end, times, counts);
    prune(payments, scratch, frame.start, times);
}

// The times of the next start and their counts, from those of this one: what a start costs is what changes in it.
// Where that grows dear, from nothing.
pub fn next_start(
    payments: Payments<'_>,
    scratch: &mut [u16],
    frame: Frame,
    next: usize,
    end: usize,
    times: &mut [u16],
    slack: &mut [u16],
    queue: &mut [u16],
    counts: &mut [u16],
)
    requires at_start { let t = table payments in
        AtStart t frame.query frame.stop frame.start frame.lo scratch.old times.old slack.old counts.old }
    requires start_asks { StartAsks payments.days.now frame next end }
    requires queue_len { length queue.old ≡ 4352 }
    ensures { let t = table payments.entry in
        AtStart t frame.query frame.stop (frame.start + 1) next
        scratch.new times.new slack.new counts.new }
{
    drop_rows(payments, frame, next, end, times, counts);
    pass_heads(payments, scratch, frame.lo, next);
    let found = step::<true>(
        payments, scratch, frame, next, end, times, slack, queue, counts,
    );
    if found.is_none() {
        let after = next_frame(frame, next);
        first_start(payments, scratch, after, end, times, slack, queue, counts);
    }
}

// The least core time at s of the rows dated s.
pub fn first_time(
    payments: Payments<'_>,
    frame: Frame,
    next: usize,
    end: usize,
    times: &[u16],
) -> u16
    requires times_at { let t = table payments in
        TimesAt t frame.query frame.stop frame.start frame.lo times.now }
    requires start_asks { StartAsks payments.days.now frame next end }
    ensures { let t = table payments.entry in
        Earliest t frame.query frame.stop frame.start result }
{
    let mut least = NEVER;
    for j in frame.lo..next {
        let time = row_time(payments, frame, end, times, j);
        least = least.min(time);
    }
    least
}
