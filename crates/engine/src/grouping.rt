// Label groups and Mark group.
ghost use Rattle.std.specs.Prelude.{◌≡◌, length};
ghost use Rattle.rings.specs.Table.{table_of};
ghost use Rattle.rings.specs.Refusals.{counted_report};
ghost use Rattle.rings.specs.Buffers.{counted_scratch};
ghost use Rattle.rings.specs.Ring.{query};
ghost use Rattle.groups.specs.GroupCalls.{label_answer, label_column, group_answer, group_marks};

use crate::numbers::Numbers;
use groups::{label_groups, mark_group};
use rings::Query;

#[unsafe(no_mangle)]
pub extern "C" fn rumbleog_label_groups(
    days: &[u16],
    first: &[u16],
    second: &[u16],
    k: u16,
    s: u16,
    e: u16,
    labels: &mut [u16],
    scratch: &mut [u16],
    place: &mut u64,
    count: &mut u64,
) -> u32
    ensures { let t = table_of days.now first.now second.now in
        let a = label_answer t (query k) s e (length labels.old) (length scratch.old) in
        (result ≡ (counted_report a).number)
        × (place.new ≡ (counted_report a).place)
        × (count.new ≡ (counted_report a).count)
        × (labels.new ≡ label_column a t (query k) s e labels.old)
        × (scratch.new ≡ counted_scratch a scratch.old) }
{
    let answer = label_groups(days, first, second, Query { k }, s, e, labels, scratch);
    let told = Numbers::from(answer);
    *place = told.place;
    *count = told.count;
    told.number
}

#[unsafe(no_mangle)]
pub extern "C" fn rumbleog_mark_group(
    days: &[u16],
    first: &[u16],
    second: &[u16],
    k: u16,
    s: u16,
    e: u16,
    account: u16,
    marks: &mut [u8],
    scratch: &mut [u16],
    place: &mut u64,
    count: &mut u64,
) -> u32
    ensures { let t = table_of days.now first.now second.now in
        let a = group_answer t (query k) s e account (length marks.old) (length scratch.old) in
        (result ≡ (counted_report a).number)
        × (place.new ≡ (counted_report a).place)
        × (count.new ≡ (counted_report a).count)
        × (marks.new ≡ group_marks a t (query k) s e account marks.old)
        × (scratch.new ≡ counted_scratch a scratch.old) }
{
    let answer = mark_group(
        days,
        first,
        second,
        Query { k },
        s,
        e,
        account,
        marks,
        scratch,
    );
    let told = Numbers::from(answer);
    *place = told.place;
    *count = told.count;
    told.number
}
