// Core times: the first day that brings an account, or a row, into a ring.
ghost use Rattle.std.specs.Prelude.{◌≡◌, ◌<◌, length};
ghost use Rattle.rings.specs.Payments.{table};
ghost use Rattle.rings.specs.Words.{tabulate};
ghost use Rattle.rings.specs.Table.{table_of};
ghost use Rattle.rings.specs.CoreTimes.{row_time};
ghost use Rattle.rings.specs.Buffers.{verdict_scratch};
ghost use Rattle.rings.specs.CoreTimesCall.{times_answer, account_column, row_column};
ghost use Rattle.rings.specs.Sound.{Sound};
ghost use Rattle.rings.specs.Inner.Peeling.{TimesKnown};
ghost use Rattle.rings.specs.Inner.Answers.{Asked, TimesBuffers, TimesFound};

use crate::Query;
use crate::adjacency::prepare_adjacency;
use crate::checks::{are_equal, check_call, is_start};
use crate::frame::Frame;
use crate::heads::move_heads;
use crate::limits::{ACCOUNTS, NEVER};
use crate::payments::Payments;
use crate::peel::peel;
use crate::refusal::Refusal;
use crate::slices::entry;
use crate::table::rows_before;

// The core time of row j: never outside the window's rows, else the greatest of its accounts' core times and its own
// day.
pub(crate) fn row_time(
    payments: Payments<'_>,
    frame: Frame,
    end: usize,
    times: &[u16],
    j: usize,
) -> u16
    requires times_known { TimesKnown (table payments) frame end times.now }
    requires j_in_bounds { j < length payments.days.now }
    ensures { let t = table payments.entry in
        result ≡ row_time t frame.query frame.stop frame.start j }
{
    if j < frame.lo {
        return NEVER;
    }
    if end <= j {
        return NEVER;
    }
    let a = entry(payments.first, j);
    let b = entry(payments.second, j);
    times[a].max(times[b]).max(payments.days[j])
}

// A core time for each row.
fn time_rows(payments: Payments<'_>, frame: Frame, end: usize, times: &[u16], rows: &mut [u16])
    requires times_known { TimesKnown (table payments) frame end times.now }
    requires rows_len { length rows.old ≡ length payments.days.now }
    ensures { let t = table payments.entry in
        rows.new ≡ tabulate (row_time t frame.query frame.stop frame.start) 0 (length payments.entry.days.now) }
{
    for j in 0..payments.days.len() {
        rows[j] = row_time(payments, frame, end, times, j);
    }
}

// The core times at one start of an accepted table, in a range that ends on stop.
fn find_times(
    payments: Payments<'_>,
    query: Query,
    start: u16,
    stop: u16,
    accounts: &mut [u16],
    rows: &mut [u16],
    scratch: &mut [u16],
)
    requires asked { Asked query start stop }
    requires times_buffers { TimesBuffers payments.days.now accounts.old rows.old scratch.old }
    ensures { let t = table payments.entry in
        TimesFound t query start stop accounts.new rows.new scratch.old scratch.new }
{
    let lo = rows_before(payments.days, start);
    let end = rows_before(payments.days, stop + 1);
    let frame = Frame {
        query: query,
        start: start,
        stop: stop,
        lo: lo,
    };
    let mut left = [0u16; ACCOUNTS];
    let mut queue = [0u16; ACCOUNTS];
    prepare_adjacency(payments, scratch);
    move_heads(payments, scratch, 0, start, 0, lo);
    peel(
        payments, scratch, frame, end, accounts, &mut left, &mut queue,
    );
    time_rows(payments, frame, end, accounts, rows);
    scratch.fill(0);
}

pub fn core_times(
    days: &[u16],
    first: &[u16],
    second: &[u16],
    query: Query,
    ts: u16,
    te: u16,
    s: u16,
    accounts: &mut [u16],
    rows: &mut [u16],
    scratch: &mut [u16],
) -> Result<(), Refusal>
    ensures result_value { let t = table_of days.now first.now second.now in
        result ≡ times_answer t query ts te s (length accounts.old) (length rows.old) (length scratch.old) }
    ensures accounts_after { let t = table_of days.now first.now second.now in
        accounts.new ≡ account_column result t query te s accounts.old }
    ensures rows_after { let t = table_of days.now first.now second.now in
        rows.new ≡ row_column result t query te s rows.old }
    ensures scratch_after { scratch.new ≡ verdict_scratch result scratch.old }
{
    let window = is_start(ts, s, te);
    let lengths = are_equal(accounts.len(), ACCOUNTS, rows.len(), days.len());
    check_call(days, first, second, query, window, lengths, scratch.len())?;
    let payments = Payments {
        days,
        first,
        second,
    };
    find_times(payments, query, s, te, accounts, rows, scratch);
    Ok(())
}
