// The table writer.
ghost use Rattle.std.specs.Prelude.{◌≡◌, length as size};
ghost use Rattle.text.specs.Table.{columns};
ghost use Rattle.text.specs.Writer.{table_text, table_write_of, text_after};
ghost use Rattle.engine.specs.Numbers.{written_report};

use crate::numbers::Numbers;
use text::write_table;

#[unsafe(no_mangle)]
pub extern "C" fn rumbleog_write_table(
    days: &[u16],
    first: &[u16],
    second: &[u16],
    text: &mut [u8],
    place: &mut u64,
    length: &mut u64,
) -> u32
    ensures { let c = columns days.now first.now second.now in
        let a = table_write_of c (size text.old) in
        (result ≡ (written_report a).number)
        × (place.new ≡ (written_report a).place)
        × (length.new ≡ (written_report a).count)
        × (text.new ≡ text_after a (table_text c) text.old) }
{
    let answer = write_table(days, first, second, text);
    let told = Numbers::from(answer);
    *place = told.place;
    *length = told.count;
    told.number
}
