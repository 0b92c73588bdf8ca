// Settling: how the core times of one start become those of the day after it. Times only rise. A scan of an account
// finds the first day, from its time on, on which it has k supporters.
// slack: of each account one more than the supporters that it can lose before it must be scanned, at least; 0 while
// it waits for a scan. What a scan counts beyond k is to spare, so most losses cost no scan.
// queue: who rose, then who waits. An account leaves the front of those who wait when it is scanned, and if it rises
// takes a place behind those who rose. It has 4,352 places, 256 more than there are accounts: where one ring of all
// accounts gives way, each rises once, and some few twice.
ghost use Rattle.std.specs.Prelude.{◌≡◌, ℕ, ◌+◌, ◌≤◌, ◌<◌, length, get_or};
ghost use Rattle.rings.specs.Payments.{table};
ghost use Rattle.rings.specs.Inner.Peeling.{next_frame};
ghost use Rattle.rings.specs.Inner.Worklist.{arrays, NearAsks, NearIs, FarAsks, AccountAsks, AttemptIs, Waits, SettledIs};
ghost use Rattle.rings.specs.Inner.Worklist.{EachOne, EachItself, BeginAsks, Begun, LeavingRows};
ghost use Rattle.rings.specs.Inner.Worklist.{DropLeavingAsks, DroppedLeavingRow, DroppedLeavingRows, StepAsks, AdvanceAsks, Advanced};

use crate::frame::{Frame, next_frame};
use crate::histogram::move_in_histogram;
use crate::limits::{ACCOUNTS, NEVER, QUEUE};
use crate::pairs::leads;
use crate::payments::Payments;
use crate::peel::peel;
use crate::scan::{Scan, find_day, first_from, scan_for_rise, slack_above};
use crate::slices::{entry, put};
use crate::supporters::{
    Rise, drop_listed_supporters, drop_supported, drop_supporter, loses_supporter,
};

// The worklist of a start, in the queue: who rose stands below `raised`, who waits from `head` to `tail`. And how
// many rows scans have passed.
#[derive(Clone, Copy)]
pub struct Worklist {
    pub head: usize,
    pub tail: usize,
    pub raised: usize,
    pub walked: usize,
}

// Where one walk does not settle an account: the rows passed by then, and the day from which a scan is to go on.
// Nothing has changed but what stands behind the queue.
#[derive(Clone, Copy)]
pub struct Open {
    pub walked: usize,
    pub day: u16,
}

// The common way: one walk over the rows of the account at the head of the queue finds that it has enough supporters
// still, or that it rises to the day above and has enough there. Where neither is so, or the queue has no room behind
// it for a list of its rows, it stays open.
fn settle_near<const COUNTING: bool>(
    payments: Payments<'_>,
    scratch: &[u16],
    frame: Frame,
    list: Worklist,
    scan: Scan,
    times: &mut [u16],
    slack: &mut [u16],
    queue: &mut [u16],
    counts: &mut [u16],
) -> Result<Worklist, Open>
    requires { let lent = arrays times.old slack.old queue.old counts.old in
        NearAsks (table payments) scratch.now frame COUNTING list scan lent }
    ensures { let t = table payments.entry in
        let lent = arrays times.old slack.old queue.old counts.old in
        let left = arrays times.new slack.new queue.new counts.new in
        NearIs result t frame COUNTING list scan lent left }
{
    let u = scan.account;
    if scan.day == NEVER {
        return Err(Open {
            walked: list.walked,
            day: scan.day,
        });
    }
    let last = entry(scratch, u);
    if scan.from + QUEUE < list.tail + last {
        return Err(Open {
            walked: list.walked,
            day: scan.day,
        });
    }
    let outcome = scan_for_rise(payments, scratch, frame, times, scan, list.tail, queue);
    if frame.query.k <= outcome.count {
        slack[u] = outcome.count + 1 - frame.query.k;
        return Ok(Worklist {
            head: list.head + 1,
            walked: list.walked + outcome.walked,
            ..list
        });
    }
    let new = outcome.above;
    let left = slack_above(new, outcome.count + outcome.more, frame.query.k);
    if left == 0 {
        return Err(Open {
            walked: list.walked + outcome.walked,
            day: new,
        });
    }
    slack[u] = left;
    times[u] = new;
    put(queue, list.raised, u);
    let end = drop_listed_supporters(slack, queue, list.tail, outcome.end);
    move_in_histogram::<COUNTING>(counts, scan.day, new, outcome.moved);
    Ok(Worklist {
        head: list.head + 1,
        tail: end,
        raised: list.raised + 1,
        walked: list.walked + outcome.walked,
    })
}

// The long way: walks on one day after the other, from the scan's on, until the account has enough, and if its time
// rises, one more for who loses it. None says that the start is given up: when the scan is, or when the queue has no
// place.
fn settle_far<const COUNTING: bool>(
    payments: Payments<'_>,
    scratch: &[u16],
    frame: Frame,
    list: Worklist,
    scan: Scan,
    times: &mut [u16],
    slack: &mut [u16],
    queue: &mut [u16],
    counts: &mut [u16],
) -> Option<Worklist>
    requires { let lent = arrays times.old slack.old queue.old counts.old in
        FarAsks (table payments) scratch.now frame COUNTING list scan lent }
    ensures { let t = table payments.entry in
        let lent = arrays times.old slack.old queue.old counts.old in
        let left = arrays times.new slack.new queue.new counts.new in
        AttemptIs result t frame COUNTING list 98304 lent left }
{
    let u = scan.account;
    let old = times[u];
    let found = find_day(payments, scratch, frame, times, scan)?;
    let time = found.time;
    slack[u] = found.left;
    if time == old {
        return Some(Worklist {
            head: list.head + 1,
            walked: list.walked + found.walked,
            ..list
        });
    }
    times[u] = time;
    put(queue, list.raised, u);
    let rise = Rise {
        account: u,
        from: scan.from,
        old,
        new: time,
    };
    let end = drop_supported::<COUNTING>(
        payments, scratch, frame, times, rise, list.tail, slack, queue, counts,
    )?;
    Some(Worklist {
        head: list.head + 1,
        tail: end,
        raised: list.raised + 1,
        walked: list.walked + found.walked,
    })
}

// The account at the head of the queue is settled. If its time rises, it is listed as raised, and who loses it waits.
fn settle_account<const COUNTING: bool>(
    payments: Payments<'_>,
    scratch: &[u16],
    frame: Frame,
    budget: usize,
    list: Worklist,
    times: &mut [u16],
    slack: &mut [u16],
    queue: &mut [u16],
    counts: &mut [u16],
) -> Option<Worklist>
    requires { let lent = arrays times.old slack.old queue.old counts.old in
        AccountAsks (table payments) scratch.now frame COUNTING budget list lent }
    ensures { let t = table payments.entry in
        let lent = arrays times.old slack.old queue.old counts.old in
        let left = arrays times.new slack.new queue.new counts.new in
        AttemptIs result t frame COUNTING list 131072 lent left }
{
    let u = entry(queue, list.head);
    let from = first_from(payments, scratch, u, frame.lo);
    let scan = Scan {
        account: u,
        from,
        day: times[u],
        budget,
    };
    let near = settle_near::<COUNTING>(
        payments, scratch, frame, list, scan, times, slack, queue, counts,
    );
    match near {
        Ok(next) => Some(next),
        Err(Open { walked, day }) => {
            let later = Worklist { walked, ..list };
            let farther = Scan { day, ..scan };
            settle_far::<COUNTING>(
                payments, scratch, frame, later, farther, times, slack, queue, counts,
            )
        }
    }
}

// Who waits is settled, one after the other, until nobody does; how many are listed as raised then. None says that
// the start is given up, and is to be peeled: where that takes more rows than the budget allows, or more places than
// the queue has.
fn settle<const COUNTING: bool>(
    payments: Payments<'_>,
    scratch: &[u16],
    frame: Frame,
    budget: usize,
    waiting: usize,
    times: &mut [u16],
    slack: &mut [u16],
    queue: &mut [u16],
    counts: &mut [u16],
) -> Option<usize>
    requires { let lent = arrays times.old slack.old queue.old counts.old in
        Waits (table payments) scratch.now frame COUNTING budget waiting lent }
    ensures { let left = arrays times.new slack.new queue.new counts.new in
        SettledIs result (table payments.entry) frame COUNTING
        times.old counts.old left }
{
    let mut list = Worklist {
        head: 0,
        tail: waiting,
        raised: 0,
        walked: 0,
    };
    // No range counts the head: the tail moves on as accounts lose supporters.
    while list.head < list.tail {
        if budget < list.walked {
            return None;
        }
        list = settle_account::<COUNTING>(
            payments, scratch, frame, budget, list, times, slack, queue, counts,
        )?;
    }
    Some(list.raised)
}

// Row j leaves: by it each of its accounts has lost the other, if it was a supporter by the row's day. None says that
// the queue has no place left.
fn drop_leaving_row(
    payments: Payments<'_>,
    scratch: &[u16],
    frame: Frame,
    times: &[u16],
    tail: usize,
    j: usize,
    slack: &mut [u16],
    queue: &mut [u16],
) -> Option<usize>
    requires drop_leaving_asks { DropLeavingAsks (table payments) scratch.now frame times.now slack.old queue.old }
    requires j_in_bounds { j < length payments.days.now }
    ensures { let t = table payments.entry in
        DroppedLeavingRow t frame times.now tail j
        slack.old queue.old result slack.new queue.new }
{
    if 4351 <= tail {
        return None;
    }
    let n = payments.days.len();
    let leading = leads(scratch, n, frame.lo, j);
    let a = entry(payments.first, j);
    let b = entry(payments.second, j);
    let x = times[a];
    let y = times[b];
    let day = payments.days[j];
    let by_a = loses_supporter(x, day, y, NEVER);
    let by_b = loses_supporter(y, day, x, NEVER);
    let mid = drop_supporter(slack, queue, tail, a, leading & by_a);
    Some(drop_supporter(slack, queue, mid, b, leading & by_b))
}

// The rows of the first day leave: the end of the queue of those who lost a supporter and had none to spare.
fn drop_leaving_rows(
    payments: Payments<'_>,
    scratch: &[u16],
    frame: Frame,
    next: usize,
    times: &[u16],
    slack: &mut [u16],
    queue: &mut [u16],
) -> Option<usize>
    requires drop_leaving_asks { DropLeavingAsks (table payments) scratch.now frame times.now slack.old queue.old }
    requires leaving_rows { LeavingRows frame next (length payments.days.now) }
    ensures { let t = table payments.entry in
        DroppedLeavingRows t frame times.now next
        slack.old queue.old result slack.new queue.new }
{
    let mut tail = 0;
    for j in frame.lo..next {
        tail = drop_leaving_row(payments, scratch, frame, times, tail, j, slack, queue)?;
    }
    Some(tail)
}

// Nobody is known to have a supporter to spare.
fn reset_slack(slack: &mut [u16])
    requires { length slack.old ≡ 4096 }
    ensures { EachOne slack.new }
{
    slack.fill(1);
}

// Every account is listed. groups plants a forest so, in an array: a function for both would be no shorter.
fn list_all(list: &mut [u16])
    requires { length list.old ≡ 4352 }
    ensures { EachItself list.new }
{
    for u in 0..ACCOUNTS {
        put(list, u, u);
    }
}

// The core times of the first start, from nothing.
pub(crate) fn peel_start(
    payments: Payments<'_>,
    scratch: &[u16],
    frame: Frame,
    end: usize,
    times: &mut [u16],
    slack: &mut [u16],
    queue: &mut [u16],
)
    requires { BeginAsks (table payments) scratch.now frame end times.old slack.old queue.old }
    ensures { Begun (table payments.entry) frame
        times.new slack.new }
{
    peel(payments, scratch, frame, end, times, slack, queue);
    reset_slack(slack);
}

// From the core times at s to those at the day after it, where the heads stand already, with a list of the accounts
// whose times are others; the number of its entries. Where days are counted, so are the row times: at entry without
// the rows dated s. It gives up where settling grows dear: the start is to be peeled then, so that none costs more
// than a constant times its rows.
pub(crate) fn step<const COUNTING: bool>(
    payments: Payments<'_>,
    scratch: &[u16],
    frame: Frame,
    next: usize,
    end: usize,
    times: &mut [u16],
    slack: &mut [u16],
    queue: &mut [u16],
    counts: &mut [u16],
) -> Option<usize>
    requires { let lent = arrays times.old slack.old queue.old counts.old in
        StepAsks (table payments) scratch.now frame COUNTING next end lent }
    ensures { let left = arrays times.new slack.new queue.new counts.new in
        SettledIs result (table payments.entry) (next_frame frame next) COUNTING
        times.old counts.old left }
{
    let waiting = drop_leaving_rows(payments, scratch, frame, next, times, slack, queue)?;
    let budget = 4 * (end - next);
    let after = next_frame(frame, next);
    settle::<COUNTING>(
        payments, scratch, after, budget, waiting, times, slack, queue, counts,
    )
}

// The same with the whole adjacency at hand, and where no days are counted. A start that is peeled lists every account.
pub(crate) fn advance(
    payments: Payments<'_>,
    scratch: &[u16],
    frame: Frame,
    next: usize,
    end: usize,
    times: &mut [u16],
    slack: &mut [u16],
    queue: &mut [u16],
) -> usize
    requires { AdvanceAsks (table payments) scratch.now frame next end
        times.old slack.old queue.old }
    ensures { Advanced (table payments.entry) (next_frame frame next)
        times.old times.new slack.new queue.new result }
{
    let mut uncounted = [0u16; 1];
    let found = step::<false>(
        payments,
        scratch,
        frame,
        next,
        end,
        times,
        slack,
        queue,
        &mut uncounted,
    );
    match found {
        Some(raised) => raised,
        None => {
            let after = next_frame(frame, next);
            peel_start(payments, scratch, after, end, times, slack, queue);
            list_all(queue);
            ACCOUNTS
        }
    }
}
