// Core times.
ghost use Rattle.std.specs.Prelude.{◌≡◌, length};
ghost use Rattle.rings.specs.Table.{table_of};
ghost use Rattle.rings.specs.Refusals.{verdict_report};
ghost use Rattle.rings.specs.Buffers.{verdict_scratch};
ghost use Rattle.rings.specs.CoreTimesCall.{times_answer, account_column, row_column};
ghost use Rattle.rings.specs.Ring.{query};

use crate::numbers::Numbers;
use rings::{Query, core_times};

#[unsafe(no_mangle)]
pub extern "C" fn rumbleog_core_times(
    days: &[u16],
    first: &[u16],
    second: &[u16],
    k: u16,
    ts: u16,
    te: u16,
    s: u16,
    accounts: &mut [u16],
    rows: &mut [u16],
    scratch: &mut [u16],
    place: &mut u64,
) -> u32
    ensures { let t = table_of days.now first.now second.now in
        let a = times_answer t (query k) ts te s (length accounts.old) (length rows.old) (length scratch.old) in
        (result ≡ (verdict_report a).number)
        × (place.new ≡ (verdict_report a).place)
        × (accounts.new ≡ account_column a t (query k) te s accounts.old)
        × (rows.new ≡ row_column a t (query k) te s rows.old)
        × (scratch.new ≡ verdict_scratch a scratch.old) }
{
    let answer = core_times(
        days,
        first,
        second,
        Query { k },
        ts,
        te,
        s,
        accounts,
        rows,
        scratch,
    );
    let told = Numbers::from(answer);
    *place = told.place;
    told.number
}
