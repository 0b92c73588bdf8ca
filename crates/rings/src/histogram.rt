// Day counts: how many rows have each day as their time. Listing keeps them up as times rise; 1,025 numbers, by day.
ghost use Rattle.std.specs.Prelude.{◌≡◌, true, false, ◌+◌, length};
ghost use Rattle.rings.specs.Payments.{table};
ghost use Rattle.rings.specs.Inner.Counting.{CountsBy, WhereCounted, Timed, Adding, Removing, Taking, Moving};
ghost use Rattle.rings.specs.Inner.Counting.{AddAsks, RemoveAsks, TakeAsks, MoveAsks, CountAsks, DropAsks};

use crate::choice::{one, pick};
use crate::frame::Frame;
use crate::limits::NEVER;
use crate::payments::Payments;
use crate::slices::wide;
use crate::times::row_time;

// m rows more with this time, if it is a day.
pub(crate) fn add_count(counts: &mut [u16], time: u16, m: u16)
    requires { AddAsks m time counts.old }
    ensures { Adding m time counts.old counts.new }
{
    if time == NEVER {
        return;
    }
    let e = time as usize;
    counts[e] = counts[e] + m;
}

// One row fewer with this time, if it is a day.
pub(crate) fn drop_count(counts: &mut [u16], time: u16)
    requires { RemoveAsks time counts.old }
    ensures { Removing time counts.old counts.new }
{
    if time == NEVER {
        return;
    }
    let e = time as usize;
    counts[e] = counts[e] - 1;
}

// Where days are counted and the test holds: one row fewer with this time, and one more of m that are still to be
// counted. A sum and no branch on the test: whether a row's time moves no processor foresees.
pub(crate) fn take_from_histogram<const COUNTING: bool>(
    counts: &mut [u16],
    test: bool,
    time: u16,
    m: u16,
) -> u16
    requires { COUNTING ≡ true → TakeAsks test time m counts.old }
    ensures where_counted { WhereCounted COUNTING (Taking test time m counts.old counts.new result)
        counts.old counts.new }
    ensures value { COUNTING ≡ false → result ≡ m }
{
    if !COUNTING {
        return m;
    }
    let more = one(test);
    let e = wide(pick(test, time, 0));
    counts[e] = counts[e] - more;
    m + more
}

// Where days are counted: the m rows that are still to be counted have this time.
pub(crate) fn add_to_histogram<const COUNTING: bool>(counts: &mut [u16], time: u16, m: u16)
    requires { COUNTING ≡ true → AddAsks m time counts.old }
    ensures { WhereCounted COUNTING (Adding m time counts.old counts.new)
        counts.old counts.new }
{
    if !COUNTING {
        return;
    }
    add_count(counts, time, m);
}

// Where days are counted: m rows go from one day to another time.
pub(crate) fn move_in_histogram<const COUNTING: bool>(
    counts: &mut [u16],
    old: u16,
    new: u16,
    m: u16,
)
    requires { COUNTING ≡ true → MoveAsks m old new counts.old }
    ensures { WhereCounted COUNTING (Moving m old new counts.old counts.new)
        counts.old counts.new }
{
    if !COUNTING {
        return;
    }
    let e = wide(old);
    counts[e] = counts[e] - m;
    add_count(counts, new, m);
}

// The core times at s of all rows, from nothing.
pub(crate) fn count_times(
    payments: Payments<'_>,
    frame: Frame,
    end: usize,
    times: &[u16],
    counts: &mut [u16],
)
    requires count_asks { CountAsks (table payments) frame end times.now }
    requires counts_len { length counts.old ≡ 1025 }
    ensures { let t = table payments.entry in
        Timed t frame.query frame.stop frame.start (length payments.entry.days.now) counts.new }
{
    counts.fill(0);
    for j in frame.lo..end {
        let time = row_time(payments, frame, end, times, j);
        add_count(counts, time, 1);
    }
}

// The rows of the first day leave: they have no time on the day after it.
pub(crate) fn drop_rows(
    payments: Payments<'_>,
    frame: Frame,
    next: usize,
    end: usize,
    times: &[u16],
    counts: &mut [u16],
)
    requires count_asks { CountAsks (table payments) frame end times.now }
    requires drop_asks { DropAsks (table payments) frame next counts.old }
    ensures { CountsBy (table payments.entry)
        (frame.start + 1) frame.stop times.now counts.new }
{
    for j in frame.lo..next {
        let time = row_time(payments, frame, end, times, j);
        drop_count(counts, time);
    }
}
