// Longest list.
ghost use Rattle.std.specs.Prelude.{◌≡◌};
ghost use Rattle.rings.specs.Refusals.{counted_report};
ghost use Rattle.listing.specs.LongestList.{longest_answer};

use crate::numbers::Numbers;
use listing::longest_list;

#[unsafe(no_mangle)]
pub extern "C" fn rumbleog_longest_list(ts: u16, te: u16, place: &mut u64, count: &mut u64) -> u32
    ensures { let a = longest_answer ts te in
        (result ≡ (counted_report a).number)
        × (place.new ≡ (counted_report a).place)
        × (count.new ≡ (counted_report a).count) }
{
    let answer = longest_list(ts, te);
    let told = Numbers::from(answer);
    *place = told.place;
    *count = told.count;
    told.number
}
