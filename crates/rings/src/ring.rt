// Window ring: the ring of one window, as marks.
ghost use Rattle.std.specs.Prelude.{◌≡◌, length};
ghost use Rattle.rings.specs.Payments.{table};
ghost use Rattle.rings.specs.Table.{table_of};
ghost use Rattle.rings.specs.Buffers.{counted_scratch};
ghost use Rattle.rings.specs.WindowRingCall.{ring_answer, ring_marks};
ghost use Rattle.rings.specs.Sound.{Sound};
ghost use Rattle.rings.specs.Inner.Answers.{Asked, RingBuffers, WholeWindow, Remaining, RowAccounts, both_remain, RingMarked, RingFound};

use crate::Query;
use crate::adjacency::prepare_adjacency;
use crate::checks::{check_call, is_window};
use crate::frame::Frame;
use crate::limits::{ACCOUNTS, ADJACENCY};
use crate::payments::Payments;
use crate::peel::core;
use crate::refusal::Refusal;
use crate::slices::entry;
use crate::table::rows_before;

// Neither account of row j has been removed.
fn stays(first: &[u16], second: &[u16], times: &[u16], j: usize) -> bool
    requires { RowAccounts first.now second.now times.now j }
    ensures { result ≡ both_remain first.now second.now times.now j }
{
    let a = entry(first, j);
    if entry(times, a) != 0 {
        return false;
    }
    let b = entry(second, j);
    if entry(times, b) != 0 {
        return false;
    }
    true
}

// The rows that stay are marked and counted, in a table all of whose rows lie in the window.
fn mark_rows(payments: Payments<'_>, frame: Frame, times: &[u16], marks: &mut [u8]) -> usize
    requires whole_window { WholeWindow (table payments) frame }
    requires remaining { Remaining (table payments) frame times.now }
    requires marks_len { length marks.old ≡ length payments.days.now }
    ensures { let t = table payments.entry in
        RingMarked t frame.query frame.start frame.stop result marks.new }
{
    let mut n = 0;
    for j in 0..payments.days.len() {
        if stays(payments.first, payments.second, times, j) {
            marks[j] = 1;
            n += 1;
        } else {
            marks[j] = 0;
        }
    }
    n
}

// The ring of the frame's window, of a table all of whose rows lie in it.
fn mark_part(payments: Payments<'_>, frame: Frame, marks: &mut [u8], scratch: &mut [u16]) -> usize
    requires whole_window { WholeWindow (table payments) frame }
    requires ring_buffers { RingBuffers payments.days.now marks.old scratch.old }
    ensures { let t = table payments.entry in
        RingMarked t frame.query frame.start frame.stop result marks.new }
{
    let n = payments.days.len();
    let mut times = [0u16; ACCOUNTS];
    let mut left = [0u16; ACCOUNTS];
    let mut queue = [0u16; ACCOUNTS];
    prepare_adjacency(payments, scratch);
    core(
        payments, scratch, frame, n, &mut times, &mut left, &mut queue,
    );
    mark_rows(payments, frame, &times, marks)
}

// The ring of [start, stop] of an accepted table. Days never fall, so the window's rows stand side by side:
// only they go into the adjacency and are peeled, and every other mark is 0.
fn mark_ring(
    payments: Payments<'_>,
    query: Query,
    start: u16,
    stop: u16,
    marks: &mut [u8],
    scratch: &mut [u16],
) -> usize
    requires asked { Asked query start stop }
    requires ring_buffers { RingBuffers payments.days.now marks.old scratch.old }
    ensures { let t = table payments.entry in
        RingFound t query start stop result marks.new scratch.old scratch.new }
{
    let lo = rows_before(payments.days, start);
    let end = rows_before(payments.days, stop + 1);
    let room = ADJACENCY + 4 * (end - lo);
    let frame = Frame {
        query: query,
        start: start,
        stop: stop,
        lo: 0,
    };
    marks.fill(0);
    let part = Payments {
        days: &payments.days[lo..end],
        first: &payments.first[lo..end],
        second: &payments.second[lo..end],
    };
    let n = mark_part(part, frame, &mut marks[lo..end], &mut scratch[..room]);
    scratch.fill(0);
    n
}

pub fn window_ring(
    days: &[u16],
    first: &[u16],
    second: &[u16],
    query: Query,
    s: u16,
    e: u16,
    marks: &mut [u8],
    scratch: &mut [u16],
) -> Result<usize, Refusal>
    ensures result_value { let t = table_of days.now first.now second.now in
        result ≡ ring_answer t query s e (length marks.old) (length scratch.old) }
    ensures marks_after { let t = table_of days.now first.now second.now in
        marks.new ≡ ring_marks result t query s e marks.old }
    ensures scratch_after { scratch.new ≡ counted_scratch result scratch.old }
{
    let window = is_window(s, e);
    let lengths = marks.len() == days.len();
    check_call(days, first, second, query, window, lengths, scratch.len())?;
    let payments = Payments {
        days,
        first,
        second,
    };
    Ok(mark_ring(payments, query, s, e, marks, scratch))
}
