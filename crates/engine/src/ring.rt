// Window ring.
ghost use Rattle.std.specs.Prelude.{◌≡◌, length};
ghost use Rattle.rings.specs.Table.{table_of};
ghost use Rattle.rings.specs.Refusals.{counted_report};
ghost use Rattle.rings.specs.Buffers.{counted_scratch};
ghost use Rattle.rings.specs.WindowRingCall.{ring_answer, ring_marks};
ghost use Rattle.rings.specs.Ring.{query};

use crate::numbers::Numbers;
use rings::{Query, window_ring};

#[unsafe(no_mangle)]
pub extern "C" fn rumbleog_window_ring(
    days: &[u16],
    first: &[u16],
    second: &[u16],
    k: u16,
    s: u16,
    e: u16,
    marks: &mut [u8],
    scratch: &mut [u16],
    place: &mut u64,
    count: &mut u64,
) -> u32
    ensures { let t = table_of days.now first.now second.now in
        let a = ring_answer t (query k) s e (length marks.old) (length scratch.old) in
        (result ≡ (counted_report a).number)
        × (place.new ≡ (counted_report a).place)
        × (count.new ≡ (counted_report a).count)
        × (marks.new ≡ ring_marks a t (query k) s e marks.old)
        × (scratch.new ≡ counted_scratch a scratch.old) }
{
    let answer = window_ring(days, first, second, Query { k }, s, e, marks, scratch);
    let told = Numbers::from(answer);
    *place = told.place;
    *count = told.count;
    told.number
}
