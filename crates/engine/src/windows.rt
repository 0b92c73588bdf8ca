// Minimal windows.
ghost use Rattle.std.specs.Prelude.{◌≡◌, length};
ghost use Rattle.rings.specs.Table.{table_of};
ghost use Rattle.rings.specs.Refusals.{counted_report};
ghost use Rattle.rings.specs.Buffers.{counted_scratch};
ghost use Rattle.rings.specs.MinimalWindowsCall.{minimal_answer, minimal_rows, minimal_starts, minimal_ends};
ghost use Rattle.rings.specs.Ring.{query};

use crate::numbers::Numbers;
use rings::{Query, minimal_windows};

#[unsafe(no_mangle)]
pub extern "C" fn rumbleog_minimal_windows(
    days: &[u16],
    first: &[u16],
    second: &[u16],
    k: u16,
    ts: u16,
    te: u16,
    row: &mut [u16],
    start: &mut [u16],
    end: &mut [u16],
    scratch: &mut [u16],
    place: &mut u64,
    count: &mut u64,
) -> u32
    ensures { let t = table_of days.now first.now second.now in
        let a = minimal_answer t (query k) ts te (length row.old) (length start.old)
        (length end.old) (length scratch.old) in
        (result ≡ (counted_report a).number)
        × (place.new ≡ (counted_report a).place)
        × (count.new ≡ (counted_report a).count)
        × (row.new ≡ minimal_rows a t (query k) ts te row.old)
        × (start.new ≡ minimal_starts a t (query k) ts te start.old)
        × (end.new ≡ minimal_ends a t (query k) ts te end.old)
        × (scratch.new ≡ counted_scratch a scratch.old) }
{
    let answer = minimal_windows(
        days,
        first,
        second,
        Query { k },
        ts,
        te,
        row,
        start,
        end,
        scratch,
    );
    let told = Numbers::from(answer);
    *place = told.place;
    *count = told.count;
    told.number
}
