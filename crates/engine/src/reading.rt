// The table reader.
ghost use Rattle.std.specs.Prelude.{◌≡◌, length};
ghost use Rattle.text.specs.Table.{days_of, firsts_of, seconds_of, table_read_of, filled};
ghost use Rattle.engine.specs.Numbers.{read_report};

use crate::numbers::Numbers;
use text::read_table;

#[unsafe(no_mangle)]
pub extern "C" fn rumbleog_read_table(
    text: &[u8],
    days: &mut [u16],
    first: &mut [u16],
    second: &mut [u16],
    place: &mut u64,
    count: &mut u64,
) -> u32
    ensures { let a = table_read_of text.now (length days.old) (length first.old) (length second.old) in
        (result ≡ (read_report a).number)
        × (place.new ≡ (read_report a).place)
        × (count.new ≡ (read_report a).count)
        × (days.new ≡ filled a (days_of text.now) days.old)
        × (first.new ≡ filled a (firsts_of text.now) first.old)
        × (second.new ≡ filled a (seconds_of text.now) second.old) }
{
    let answer = read_table(text, days, first, second);
    let told = Numbers::from(answer);
    *place = told.place;
    *count = told.count;
    told.number
}
