// Table check.
ghost use Rattle.std.specs.Prelude.{◌≡◌};
ghost use Rattle.rings.specs.Table.{table_of};
ghost use Rattle.rings.specs.Refusals.{verdict_report};
ghost use Rattle.rings.specs.TableCheck.{table_check};

use crate::numbers::Numbers;
use rings::check_table;

#[unsafe(no_mangle)]
pub extern "C" fn rumbleog_check_table(
    days: &[u16],
    first: &[u16],
    second: &[u16],
    place: &mut u64,
) -> u32
    ensures { let t = table_of days.now first.now second.now in
        let a = table_check t in
        (result ≡ (verdict_report a).number)
        × (place.new ≡ (verdict_report a).place) }
{
    let answer = check_table(days, first, second);
    let told = Numbers::from(answer);
    *place = told.place;
    told.number
}
