// A scan of an account: the first day, from its time on, on which it has k supporters, by walks over its rows in the
// adjacency.
ghost use Rattle.std.specs.Prelude.{◌≡◌, true, false, ◌+◌, ◌≤◌, ◌<◌, length, get_or};
ghost use Rattle.rings.specs.Payments.{table};
ghost use Rattle.rings.specs.CoreTimes.{never};
ghost use Rattle.rings.specs.Sound.{Sound};
ghost use Rattle.rings.specs.Inner.Adjacency.{PrunedAdjacency, Reading};
ghost use Rattle.rings.specs.Inner.Settling.{ScanOver, RowNoted, ScanOn, RoomBehind, Scanned, ScannedForRise, ScanFrom, SlackAbove, FoundDayIs};

use crate::choice::{one, pick};
use crate::frame::Frame;
use crate::incident::{day_at, row_at};
use crate::limits::{ACCOUNTS, ADJACENCY, NEVER};
use crate::payments::Payments;
use crate::slices::{entry, put, wide};

// A scan of an account's rows: where they begin in the adjacency, the day that is asked about, and the rows that may
// be passed before it is given up.
#[derive(Clone, Copy)]
pub struct Scan {
    pub account: usize,
    pub from: usize,
    pub day: u16,
    pub budget: usize,
}

// How many support an account on a day, the least later day on which one more may, and how many more then.
#[derive(Clone, Copy)]
struct ScanCounts {
    count: u16,
    above: u16,
    more: u16,
}

// The same with the number of rows that a walk passed.
#[derive(Clone, Copy)]
pub struct DayScan {
    pub count: u16,
    pub above: u16,
    pub more: u16,
    pub walked: usize,
}

// The same with what a rise to the day above needs: how many rows of the account move with it, and where the list of
// those who lose it ends.
#[derive(Clone, Copy)]
pub struct RiseScan {
    pub count: u16,
    pub above: u16,
    pub more: u16,
    pub moved: u16,
    pub end: usize,
    pub walked: usize,
}

// What a scan finds: the account's time, its spare supporters, counted from 1, and the rows that it passed.
#[derive(Clone, Copy)]
pub struct FoundDay {
    pub time: u16,
    pub left: u16,
    pub walked: usize,
}

// A row dated on this day, and all later ones, can change nothing: they support on no day up to c, and either enough
// do already, or they lie behind the range or behind the day above.
fn is_over(day: u16, c: u16, stop: u16, above: u16, k: u16, count: u16) -> bool
    ensures { ScanOver day c stop above k count result }
{
    if day <= c {
        return false;
    }
    if k <= count {
        return true;
    }
    if stop < day {
        return true;
    }
    if above < day {
        return true;
    }
    false
}

// One row more, which comes in on day z, and counts if it is the first of its pair. The day above lies after c. Sums
// and choices and no branch: which way a row goes no processor foresees.
fn note_row(z: u16, leading: bool, c: u16, count: u16, above: u16, more: u16) -> ScanCounts
    requires { (count < 16384) × (more < 16384) × (c < above) }
    ensures { RowNoted leading z c count above more result.count result.above result.more }
{
    let within = z <= c;
    let nearer = !within & (z < above);
    let level = z == above;
    ScanCounts {
        count: count + one(within & leading),
        above: pick(nearer, z, above),
        more: pick(nearer, one(leading), more + one(level & leading)),
    }
}

// The rows of u on day c. They stand in rising order: the walk stops at the first that can change nothing.
fn scan_on_day(
    payments: Payments<'_>,
    scratch: &[u16],
    frame: Frame,
    times: &[u16],
    scan: Scan,
) -> DayScan
    requires { ScanOn (table payments) scratch.now frame times.now scan }
    ensures { let t = table payments.entry in
        Scanned t frame times.now scan result.count result.above result.more result.walked }
{
    let last = entry(scratch, scan.account);
    let mut count = 0;
    let mut above = NEVER;
    let mut more = 0;
    for p in scan.from..last {
        let day = day_at(payments.days, scratch, p);
        if is_over(day, scan.day, frame.stop, above, frame.query.k, count) {
            return DayScan {
                count,
                above,
                more,
                walked: p - scan.from,
            };
        }
        let here = row_at(payments, scratch, frame.lo, scan.account, p);
        let v = here.other;
        let z = times[v].max(here.day);
        let noted = note_row(
            pick(here.leads, z, NEVER),
            true,
            scan.day,
            count,
            above,
            more,
        );
        count = noted.count;
        above = noted.above;
        more = noted.more;
    }
    DayScan {
        count,
        above,
        more,
        walked: last - scan.from,
    }
}

// The same walk on the time of u, for a rise from there to the day above. Here each row may bring that day nearer,
// first of its pair or not, so that none comes in between: the rows that move with u are then those that come in by
// c, and who loses it are those of its supporters who have the time c. These are listed behind the queue, which has
// room for one for each row: each is written, and the end moves on behind those who lose it, without a branch.
pub(crate) fn scan_for_rise(
    payments: Payments<'_>,
    scratch: &[u16],
    frame: Frame,
    times: &[u16],
    scan: Scan,
    tail: usize,
    queue: &mut [u16],
) -> RiseScan
    requires scan_on { ScanOn (table payments) scratch.now frame times.now scan }
    requires room_behind { RoomBehind scratch.now scan tail queue.old }
    ensures { let t = table payments.entry in
        ScannedForRise t frame times.now scan tail queue.old queue.new result }
{
    let last = entry(scratch, scan.account);
    let mut count = 0;
    let mut above = NEVER;
    let mut more = 0;
    let mut moved = 0;
    let mut end = tail;
    for p in scan.from..last {
        let day = day_at(payments.days, scratch, p);
        if is_over(day, scan.day, frame.stop, above, frame.query.k, count) {
            return RiseScan {
                count,
                above,
                more,
                moved,
                end,
                walked: p - scan.from,
            };
        }
        let here = row_at(payments, scratch, frame.lo, scan.account, p);
        let v = here.other;
        let x = times[v];
        let z = x.max(here.day);
        let within = z <= scan.day;
        put(queue, end, v);
        end += wide(one(within & here.leads & (x == scan.day)));
        moved += one(within);
        let noted = note_row(z, here.leads, scan.day, count, above, more);
        count = noted.count;
        above = noted.above;
        more = noted.more;
    }
    RiseScan {
        count,
        above,
        more,
        moved,
        end,
        walked: last - scan.from,
    }
}

// What an account has to spare on the day above, counted from 1; 0 where those who support it then are too few. Never
// asks for none. No Option: 0 is too few in the array of what accounts have to spare, too.
pub(crate) fn slack_above(above: u16, both: u16, k: u16) -> u16
    requires { both ≤ 16384 }
    ensures { SlackAbove above both k result }
{
    if above == NEVER {
        return 1;
    }
    if both < k {
        return 0;
    }
    both + 1 - k
}

// The first day from the time of the account on with k supporters, or never, where it is known that no day before the
// scan's has them. It gives up when it has passed more rows than the budget allows.
pub(crate) fn find_day(
    payments: Payments<'_>,
    scratch: &[u16],
    frame: Frame,
    times: &[u16],
    scan: Scan,
) -> Option<FoundDay>
    requires { ScanFrom (table payments) scratch.now frame times.now scan }
    ensures { let t = table payments.entry in
        FoundDayIs result t frame times.now scan }
{
    let mut walked: usize = 0;
    let mut c = scan.day;
    // No range counts c: it jumps from day to day, each the least later one on which one more may support.
    while c < NEVER {
        if scan.budget < walked {
            return None;
        }
        let here = Scan { day: c, ..scan };
        let outcome = scan_on_day(payments, scratch, frame, times, here);
        walked += outcome.walked;
        if frame.query.k <= outcome.count {
            return Some(FoundDay {
                time: c,
                left: outcome.count + 1 - frame.query.k,
                walked,
            });
        }
        c = outcome.above;
        if c == NEVER {
            return Some(FoundDay {
                time: c,
                left: 1,
                walked,
            });
        }
        let both = outcome.count + outcome.more;
        if frame.query.k <= both {
            return Some(FoundDay {
                time: c,
                left: both + 1 - frame.query.k,
                walked,
            });
        }
    }
    Some(FoundDay {
        time: c,
        left: 1,
        walked,
    })
}

// Where the rows of u from lo on begin in the adjacency: at its head, which has passed those that left. The search
// makes it sure, so no walk asks for it row by row.
pub(crate) fn first_from(payments: Payments<'_>, scratch: &[u16], u: usize, lo: usize) -> usize
    requires { PrunedAdjacency (table payments) scratch.now × (u < 4096) }
    ensures { Reading scratch.now u lo result }
{
    let last = entry(scratch, u);
    let head = entry(scratch, ACCOUNTS + u);
    for p in head..last {
        let j = entry(scratch, ADJACENCY + p);
        if lo <= j {
            return p;
        }
    }
    last
}
