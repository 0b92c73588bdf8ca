// Label groups: each row of a window's ring by the smallest account of its group.
ghost use Rattle.std.specs.Prelude.{◌≡◌, length, replicate};
ghost use Rattle.rings.specs.Table.{table_of};
ghost use Rattle.rings.specs.Buffers.{counted_scratch};
ghost use Rattle.groups.specs.Groups.{labels_of, none};
ghost use Rattle.groups.specs.GroupCalls.{label_answer, label_column};
ghost use Rattle.groups.specs.Inner.{labelled, at_most};
ghost use Rattle.groups.specs.RingRows.{table_in, marked_in};

use crate::Asked;
use crate::forest::find_leaders;
use crate::rows::{MARKS, Ring, places_for, window_rows};
use rings::choice::pick;
use rings::{ACCOUNTS, Query, Refusal, window_ring};

// The label of a row outside the ring, a number of the lent column.
const NONE: u16 = 65535;

// Each row that is marked gets the leader of its first account.
fn write_labels(ring: Ring, leaders: &[u16; ACCOUNTS], labels: &mut [u16])
    requires { labels.old ≡ replicate (length ring.days.now) none }
    ensures { labels.new ≡ labelled ring.entry.first.now ring.entry.marks.now leaders.now }
{
    for j in ring.rows.lo..ring.rows.end {
        labels[j] = pick(ring.marks[j] == 0, NONE, leaders[ring.first[j] as usize]);
    }
}

// The labels of a ring's rows.
fn label_rows(ring: Ring, labels: &mut [u16], parents: &mut [u16; ACCOUNTS])
    requires { length labels.old ≡ length ring.days.now }
    ensures labels_after { labels.new ≡ labels_of (table_in ring.entry) (marked_in ring.entry) }
    ensures parents_after { parents.new ≡ replicate 4096 0 }
{
    labels.fill(NONE);
    find_leaders(ring, parents);
    write_labels(ring, parents, labels);
    parents.fill(0);
}

// Label groups, with marks lent for the ring.
fn label_ring(
    days: &[u16],
    first: &[u16],
    second: &[u16],
    asked: Asked,
    marks: &mut [u8],
    labels: &mut [u16],
    scratch: &mut [u16],
) -> Result<usize, Refusal>
    requires { length marks.old ≡ at_most (length labels.old) }
    ensures result_value { let t = table_of days.now first.now second.now in
        let places = length labels.old in
        result ≡ label_answer t asked.query asked.s asked.e places (length scratch.old) }
    ensures labels_after { let t = table_of days.now first.now second.now in
        labels.new ≡ label_column result t asked.query asked.s asked.e labels.old }
    ensures scratch_after { scratch.new ≡ counted_scratch result scratch.old }
{
    let n = window_ring(
        days,
        first,
        second,
        asked.query,
        asked.s,
        asked.e,
        marks,
        scratch,
    )?;
    let rows = window_rows(days, asked.s, asked.e);
    let ring = Ring {
        days,
        first,
        second,
        marks,
        rows,
    };
    label_rows(ring, labels, scratch.first_chunk_mut().unwrap());
    Ok(n)
}

pub fn label_groups(
    days: &[u16],
    first: &[u16],
    second: &[u16],
    query: Query,
    s: u16,
    e: u16,
    labels: &mut [u16],
    scratch: &mut [u16],
) -> Result<usize, Refusal>
    ensures result_value { let t = table_of days.now first.now second.now in
        result ≡ label_answer t query s e (length labels.old) (length scratch.old) }
    ensures labels_after { let t = table_of days.now first.now second.now in
        labels.new ≡ label_column result t query s e labels.old }
    ensures scratch_after { scratch.new ≡ counted_scratch result scratch.old }
{
    let asked = Asked { query, s, e };
    let mut marks = [0u8; MARKS];
    let places = places_for(labels.len());
    label_ring(
        days,
        first,
        second,
        asked,
        &mut marks[..places],
        labels,
        scratch,
    )
}
