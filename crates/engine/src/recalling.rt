// Recall.
ghost use Rattle.std.specs.Prelude.{◌≡◌, length};
ghost use Rattle.rings.specs.Table.{table_of};
ghost use Rattle.rings.specs.Refusals.{verdict_report};
ghost use Rattle.rings.specs.RecallCall.{columns_of, recall_answer, recall_marks};

use crate::numbers::Numbers;
use rings::recall;

#[unsafe(no_mangle)]
pub extern "C" fn rumbleog_recall(
    days: &[u16],
    first: &[u16],
    second: &[u16],
    row: &[u16],
    start: &[u16],
    end: &[u16],
    s: u16,
    e: u16,
    marks: &mut [u8],
    place: &mut u64,
) -> u32
    ensures { let t = table_of days.now first.now second.now in
        let l = columns_of row.now start.now end.now in
        let a = recall_answer t l s e (length marks.old) in
        (result ≡ (verdict_report a).number)
        × (place.new ≡ (verdict_report a).place)
        × (marks.new ≡ recall_marks a t l s e marks.old) }
{
    let answer = recall(days, first, second, row, start, end, s, e, marks);
    let told = Numbers::from(answer);
    *place = told.place;
    told.number
}
