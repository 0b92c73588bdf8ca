// Who loses a supporter, by a rise or by a row that leaves.
// slack: of each account one more than the supporters that it can lose before it must be scanned, at least; 0 while
// it waits for a scan.
ghost use Rattle.std.specs.Prelude.{◌≡◌, true, ◌&&◌, ℕ, ◌+◌, ◌≤◌, ◌<◌, length, get_or, leb, ltb};
ghost use Rattle.rings.specs.Payments.{table};
ghost use Rattle.rings.specs.Inner.Settling.{DropAsks, DroppedSupporter, ListedAsks, DroppedList};
ghost use Rattle.rings.specs.Inner.Worklist.{arrays, RiseAsks, RiseLeft};

use crate::choice::one;
use crate::frame::Frame;
use crate::histogram::{add_to_histogram, take_from_histogram};
use crate::incident::row_at;
use crate::limits::QUEUE;
use crate::payments::Payments;
use crate::slices::{entry, put, wide};

// An account whose time is z had a supporter with the time old by a row of this day, and has it no more when that has
// the time new.
pub(crate) fn loses_supporter(z: u16, day: u16, old: u16, new: u16) -> bool
    ensures { result ≡ ((leb old z && leb day z) && ltb z new) }
{
    (old <= z) & (day <= z) & (z < new)
}

// A rise: the account, where its rows begin in the adjacency, its time till now and its new one.
#[derive(Clone, Copy)]
pub struct Rise {
    pub account: usize,
    pub from: usize,
    pub old: u16,
    pub new: u16,
}

// v loses a supporter where the test holds. It is put at the end of the queue, and the end moves on if it has none to
// spare now: no branch, as in a scan.
pub(crate) fn drop_supporter(
    slack: &mut [u16],
    queue: &mut [u16],
    tail: usize,
    v: usize,
    test: bool,
) -> usize
    requires { DropAsks slack.old queue.old tail v }
    ensures { DroppedSupporter test v tail slack.old queue.old slack.new queue.new result }
{
    let n = slack[v];
    let less = test & (0 < n);
    let last = test & (n == 1);
    slack[v] = n - one(less);
    put(queue, tail, v);
    tail + wide(one(last))
}

// Each account that is listed from place tail to upto loses a supporter, and waits if it has none to spare now. The
// list stands behind the queue: the queue grows over what has been read of it.
pub(crate) fn drop_listed_supporters(
    slack: &mut [u16],
    queue: &mut [u16],
    tail: usize,
    upto: usize,
) -> usize
    requires { ListedAsks slack.old queue.old tail upto }
    ensures { DroppedList tail upto slack.old queue.old slack.new queue.new result }
{
    let mut end = tail;
    for p in tail..upto {
        let v = entry(queue, p);
        end = drop_supporter(slack, queue, end, v, true);
    }
    end
}

// A rise takes a supporter from each account that was supported till now. A row dated on the new time or later, or
// behind the range, takes none. Where days are counted, each row whose time moves with it is taken off its day, and
// all of them are counted on the new one at the end. None says that the queue has no place left.
pub(crate) fn drop_supported<const COUNTING: bool>(
    payments: Payments<'_>,
    scratch: &[u16],
    frame: Frame,
    times: &[u16],
    rise: Rise,
    tail: usize,
    slack: &mut [u16],
    queue: &mut [u16],
    counts: &mut [u16],
) -> Option<usize>
    requires { let lent = arrays times.now slack.old queue.old counts.old in
        RiseAsks (table payments) scratch.now frame rise COUNTING tail lent }
    ensures { let t = table payments.entry in
        let lent = arrays times.now slack.old queue.old counts.old in
        let left = arrays times.now slack.new queue.new counts.new in
        RiseLeft t frame rise COUNTING tail lent left result }
{
    let last = entry(scratch, rise.account);
    let until = rise.new.min(frame.stop + 1);
    let mut end = tail;
    let mut moved = 0;
    for p in rise.from..last {
        let here = row_at(payments, scratch, frame.lo, rise.account, p);
        if until <= here.day {
            add_to_histogram::<COUNTING>(counts, rise.new, moved);
            return Some(end);
        }
        if QUEUE <= end {
            return None;
        }
        let v = here.other;
        let z = times[v];
        let own = rise.old.max(here.day);
        let moves = z < rise.new;
        let loses = (own <= z) & moves;
        end = drop_supporter(slack, queue, end, v, here.leads & loses);
        let time = own.max(z);
        moved = take_from_histogram::<COUNTING>(counts, moves, time, moved);
    }
    add_to_histogram::<COUNTING>(counts, rise.new, moved);
    Some(end)
}
