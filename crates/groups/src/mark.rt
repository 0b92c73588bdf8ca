// Mark group: the group of one named account.
ghost use Rattle.std.specs.Prelude.{◌≡◌, ◌<◌, length, replicate, eqb};
ghost use Rattle.rings.specs.Words.{◌and◌, ◌or◌, no};
ghost use Rattle.rings.specs.Table.{table_of};
ghost use Rattle.rings.specs.Ring.{met};
ghost use Rattle.rings.specs.Buffers.{counted_scratch};
ghost use Rattle.groups.specs.GroupCalls.{group_answer, group_marks};
ghost use Rattle.groups.specs.Inner.{LedMarked, GroupMarked, at_most};
ghost use Rattle.groups.specs.RingRows.{table_in, marked_in};

use crate::Asked;
use crate::forest::find_leaders;
use crate::rows::{MARKS, Ring, places_for, window_rows};
use rings::choice::one;
use rings::{ACCOUNTS, Query, Refusal, window_ring};

// A row that is marked has the account.
fn is_met(ring: Ring, account: u16) -> bool
    ensures { result ≡ met (table_in ring.entry) (marked_in ring.entry) account }
{
    (ring.rows.lo..ring.rows.end).any(|j| ring.marks[j] != 0
        && (ring.first[j] == account || ring.second[j] == account))
}

// A row is marked, and its leader is the one that is asked for.
fn is_led(mark: u8, leader: u16, asked: u16) -> bool
    ensures { result ≡ (no (eqb mark 0) and eqb leader asked) }
{
    mark != 0 && leader == asked
}

// The rows with the account's leader are marked and counted.
fn mark_led(ring: Ring, leaders: &[u16; ACCOUNTS], account: u16, marks: &mut [u8]) -> usize
    requires cleared { marks.old ≡ replicate (length ring.days.now) 0 }
    requires account_bound { account < 4096 }
    ensures { LedMarked ring.entry.first.now ring.entry.marks.now leaders.now account result marks.new }
{
    let asked = leaders[account as usize];
    let mut n = 0;
    for j in ring.rows.lo..ring.rows.end {
        let led = one(is_led(ring.marks[j], leaders[ring.first[j] as usize], asked));
        marks[j] = led as u8;
        n += led as usize;
    }
    n
}

// The group of an account that is met in the ring.
fn mark_rows(ring: Ring, account: u16, marks: &mut [u8], parents: &mut [u16; ACCOUNTS]) -> usize
    requires account_bound { account < 4096 }
    requires marks_len { length marks.old ≡ length ring.days.now }
    ensures group_marked { GroupMarked (table_in ring.entry) (marked_in ring.entry) account result marks.new }
    ensures parents_after { parents.new ≡ replicate 4096 0 }
{
    marks.fill(0);
    find_leaders(ring, parents);
    let n = mark_led(ring, parents, account, marks);
    parents.fill(0);
    n
}

// Mark group, with marks lent for the ring.
fn mark_part(
    days: &[u16],
    first: &[u16],
    second: &[u16],
    asked: Asked,
    account: u16,
    ring: &mut [u8],
    marks: &mut [u8],
    scratch: &mut [u16],
) -> Result<usize, Refusal>
    requires { length ring.old ≡ at_most (length marks.old) }
    ensures result_value { let t = table_of days.now first.now second.now in
        let places = length marks.old in
        result ≡ group_answer t asked.query asked.s asked.e account places (length scratch.old) }
    ensures marks_after { let t = table_of days.now first.now second.now in
        marks.new ≡ group_marks result t asked.query asked.s asked.e account marks.old }
    ensures scratch_after { scratch.new ≡ counted_scratch result scratch.old }
{
    window_ring(
        days,
        first,
        second,
        asked.query,
        asked.s,
        asked.e,
        ring,
        scratch,
    )?;
    let rows = window_rows(days, asked.s, asked.e);
    let ring = Ring {
        days,
        first,
        second,
        marks: ring,
        rows,
    };
    if !is_met(ring, account) {
        return Err(Refusal::NotInRing);
    }
    let n = mark_rows(ring, account, marks, scratch.first_chunk_mut().unwrap());
    Ok(n)
}

pub fn mark_group(
    days: &[u16],
    first: &[u16],
    second: &[u16],
    query: Query,
    s: u16,
    e: u16,
    account: u16,
    marks: &mut [u8],
    scratch: &mut [u16],
) -> Result<usize, Refusal>
    ensures result_value { let t = table_of days.now first.now second.now in
        result ≡ group_answer t query s e account (length marks.old) (length scratch.old) }
    ensures marks_after { let t = table_of days.now first.now second.now in
        marks.new ≡ group_marks result t query s e account marks.old }
    ensures scratch_after { scratch.new ≡ counted_scratch result scratch.old }
{
    let asked = Asked { query, s, e };
    let mut ring = [0u8; MARKS];
    let places = places_for(marks.len());
    mark_part(
        days,
        first,
        second,
        asked,
        account,
        &mut ring[..places],
        marks,
        scratch,
    )
}
