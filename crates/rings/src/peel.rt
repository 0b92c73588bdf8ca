// Core times of one start from nothing, by peeling: accounts are removed where fewer than k neighbours are left, as
// the rows leave from the last day on.
// times: 0 while an account has not been removed, then its core time; left: its neighbours left; queue: who was
// removed and is still to be walked.
// Each account is walked once, from its head on, and each row leaves once, so the work is linear in the rows of the
// window.
ghost use Rattle.std.specs.Prelude.{◌+◌};
ghost use Rattle.rings.specs.Payments.{table};
ghost use Rattle.rings.specs.Inner.Peeling.{PeelBuffers, Droppable, DroppedNeighbour, Ready, Span, NeighbourCounts, CoreTimesAre, all_rows};
ghost use Rattle.rings.specs.Inner.Peeling.{PeelStateOf, Continues, HeadWaits, HeadWalked, QueueEmpty, RowRemoval, RowsRemovedTo, RowRemovable};

use crate::frame::Frame;
use crate::incident::row_at;
use crate::limits::{ACCOUNTS, NEVER};
use crate::pairs::leads;
use crate::payments::Payments;
use crate::slices::{entry, put};

// How far the removal has come: the day that is the core time of who is removed now, the end of the rows that have
// not left,
// and the queue of the fallen from head to tail.
#[derive(Clone, Copy)]
pub struct Removal {
    pub day: u16,
    pub end: usize,
    pub head: usize,
    pub tail: usize,
}

// Account v loses a neighbour; with the k-th it is removed, dated e, and waits in the queue. Who was removed before
// has fewer left,
// so one test that nearly always fails is enough, and whether v was removed, which no processor foresees, is not asked.
fn drop_neighbour(
    k: u16,
    e: u16,
    tail: usize,
    v: usize,
    times: &mut [u16],
    left: &mut [u16],
    queue: &mut [u16],
) -> usize
    requires { Droppable k tail v times.old left.old queue.old }
    ensures { DroppedNeighbour k e tail v times.old left.old queue.old
        times.new left.new queue.new result }
{
    let n = left[v];
    left[v] = n - 1;
    if n != k {
        return tail;
    }
    times[v] = e;
    queue[tail] = v as u16;
    tail + 1
}

// The rows of the account at the head of the queue: by each leading row that has not left the other account loses a
// neighbour.
fn remove_account(
    payments: Payments<'_>,
    scratch: &[u16],
    frame: Frame,
    removal: Removal,
    times: &mut [u16],
    left: &mut [u16],
    queue: &mut [u16],
) -> Removal
    requires ready { Ready (table payments) scratch.now frame }
    requires head_waits { HeadWaits (table payments) frame removal times.old left.old queue.old }
    ensures { HeadWalked (table payments.entry) frame removal result
        times.new left.new queue.new }
{
    let u = entry(queue, removal.head);
    let end = entry(scratch, u);
    let head = entry(scratch, ACCOUNTS + u);
    let mut tail = removal.tail;
    for p in head..end {
        let here = row_at(payments, scratch, frame.lo, u, p);
        let j = here.row;
        if removal.end <= j {
            return Removal {
                head: removal.head + 1,
                tail,
                ..removal
            };
        }
        if (frame.lo <= j) & here.leads {
            let v = here.other;
            tail = drop_neighbour(frame.query.k, removal.day, tail, v, times, left, queue);
        }
    }
    Removal {
        head: removal.head + 1,
        tail,
        ..removal
    }
}

// Who waits is walked, until nobody does. A `while`, as the queue grows on the way.
fn remove_queued(
    payments: Payments<'_>,
    scratch: &[u16],
    frame: Frame,
    removal: Removal,
    times: &mut [u16],
    left: &mut [u16],
    queue: &mut [u16],
) -> Removal
    requires ready { Ready (table payments) scratch.now frame }
    requires peel_state_of { PeelStateOf (table payments) frame 4096 removal times.old left.old queue.old }
    ensures { QueueEmpty (table payments.entry) frame removal result
        times.new left.new queue.new }
{
    let mut state = removal;
    while state.head < state.tail {
        state = remove_account(payments, scratch, frame, state, times, left, queue);
    }
    state
}

// Row j, the last of the rows that have not left, leaves: the new end of the queue. Who falls by it has its day.
// The two numbers go in and one comes back: this is done for each row, and a struct would go through memory.
fn remove_row(
    payments: Payments<'_>,
    scratch: &[u16],
    frame: Frame,
    j: usize,
    tail: usize,
    times: &mut [u16],
    left: &mut [u16],
    queue: &mut [u16],
) -> usize
    requires ready { Ready (table payments) scratch.now frame }
    requires row_removable { RowRemovable (table payments) frame (j + 1) tail times.old left.old queue.old }
    ensures { RowsRemovedTo (table payments.entry) frame j result
        times.new left.new queue.new }
{
    let n = payments.days.len();
    let e = payments.days[j];
    if leads(scratch, n, frame.lo, j) {
        let a = entry(payments.first, j);
        let b = entry(payments.second, j);
        if entry(times, a) != 0 {
            return tail;
        }
        if entry(times, b) != 0 {
            return tail;
        }
        let one = drop_neighbour(frame.query.k, e, tail, a, times, left, queue);
        let two = drop_neighbour(frame.query.k, e, one, b, times, left, queue);
        let removed = Removal {
            day: e,
            end: j,
            head: tail,
            tail: two,
        };
        let idle = remove_queued(payments, scratch, frame, removed, times, left, queue);
        return idle.tail;
    }
    tail
}

// The rows leave, from the last on: who is removed meanwhile has the day of the leaving row for its core time.
fn remove_rows_from_the_end(
    payments: Payments<'_>,
    scratch: &[u16],
    frame: Frame,
    removal: Removal,
    times: &mut [u16],
    left: &mut [u16],
    queue: &mut [u16],
)
    requires ready { Ready (table payments) scratch.now frame }
    requires row_removal { RowRemoval (table payments) frame removal times.old left.old queue.old }
    ensures { CoreTimesAre (table payments.entry) frame times.new }
{
    let mut tail = removal.tail;
    for j in (frame.lo..removal.end).rev() {
        tail = remove_row(payments, scratch, frame, j, tail, times, left, queue);
    }
}

// How many neighbours each account has in the rows from lo to end.
fn count_neighbours(
    payments: Payments<'_>,
    scratch: &[u16],
    frame: Frame,
    end: usize,
    left: &mut [u16],
)
    requires ready { Ready (table payments) scratch.now frame }
    requires span { Span payments.days.now frame.stop frame.lo end }
    requires neighbour_counts { NeighbourCounts (table payments) frame.lo frame.lo left.old }
    ensures { let t = table payments.entry in
        NeighbourCounts t frame.lo end left.new }
{
    let n = payments.days.len();
    for j in frame.lo..end {
        if leads(scratch, n, frame.lo, j) {
            let a = entry(payments.first, j);
            let b = entry(payments.second, j);
            let x = entry(left, a);
            put(left, a, x + 1);
            let y = entry(left, b);
            put(left, b, y + 1);
        }
    }
}

// Who has fewer than k neighbours to begin with is removed, with no core time.
fn queue_low_degree(
    payments: Payments<'_>,
    scratch: &[u16],
    frame: Frame,
    end: usize,
    times: &mut [u16],
    left: &mut [u16],
    queue: &mut [u16],
) -> Removal
    requires ready { Ready (table payments) scratch.now frame }
    requires peel_state_of { PeelStateOf (table payments) frame 0 (all_rows end) times.old left.old queue.old }
    ensures { Continues (table payments.entry) frame (all_rows end) result
        times.new left.new queue.new }
{
    let mut tail = 0;
    for u in 0..ACCOUNTS {
        if left[u] < frame.query.k {
            put(times, u, NEVER as usize);
            put(queue, tail, u);
            tail += 1;
        }
    }
    Removal {
        day: NEVER,
        end,
        head: 0,
        tail,
    }
}

// The ring of the whole window: who has not been removed when nobody waits is met in it.
pub(crate) fn core(
    payments: Payments<'_>,
    scratch: &[u16],
    frame: Frame,
    end: usize,
    times: &mut [u16],
    left: &mut [u16],
    queue: &mut [u16],
) -> Removal
    requires ready { Ready (table payments) scratch.now frame }
    requires span { Span payments.days.now frame.stop frame.lo end }
    requires peel_buffers { PeelBuffers times.old left.old queue.old }
    ensures { QueueEmpty (table payments.entry) frame (all_rows end) result
        times.new left.new queue.new }
{
    times.fill(0);
    left.fill(0);
    count_neighbours(payments, scratch, frame, end, left);
    let low = queue_low_degree(payments, scratch, frame, end, times, left, queue);
    remove_queued(payments, scratch, frame, low, times, left, queue)
}

// The core times of all accounts at one start.
pub(crate) fn peel(
    payments: Payments<'_>,
    scratch: &[u16],
    frame: Frame,
    end: usize,
    times: &mut [u16],
    left: &mut [u16],
    queue: &mut [u16],
)
    requires ready { Ready (table payments) scratch.now frame }
    requires span { Span payments.days.now frame.stop frame.lo end }
    requires peel_buffers { PeelBuffers times.old left.old queue.old }
    ensures { CoreTimesAre (table payments.entry) frame times.new }
{
    let ring = core(payments, scratch, frame, end, times, left, queue);
    remove_rows_from_the_end(payments, scratch, frame, ring, times, left, queue);
}
