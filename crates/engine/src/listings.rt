// Listing.
ghost use Rattle.std.specs.Prelude.{◌≡◌, length};
ghost use Rattle.rings.specs.Table.{table_of};
ghost use Rattle.listing.specs.ListingCall.{columns_of, places_of, listing_answer, listing_columns, listing_scratch};
ghost use Rattle.listing.specs.ListingCall.{listing_report, listing_sum, listing_empty};
ghost use Rattle.rings.specs.Ring.{query};

use crate::numbers::Numbers;
use listing::{Listed, list_rings};
use rings::Query;

#[unsafe(no_mangle)]
pub extern "C" fn rumbleog_listing(
    days: &[u16],
    first: &[u16],
    second: &[u16],
    k: u16,
    ts: u16,
    te: u16,
    start: &mut [u16],
    end: &mut [u16],
    rows: &mut [u16],
    windows: &mut [u32],
    scratch: &mut [u16],
    place: &mut u64,
    count: &mut u64,
    sum: &mut u64,
    empty: &mut u64,
) -> u32
    ensures { let t = table_of days.now first.now second.now in
        let old = columns_of start.old end.old rows.old windows.old in
        let new = columns_of start.new end.new rows.new windows.new in
        let a = listing_answer t (query k) ts te (places_of old) (length scratch.old) in
        (result ≡ (listing_report a).number)
        × (place.new ≡ (listing_report a).place)
        × (count.new ≡ (listing_report a).count)
        × (sum.new ≡ listing_sum a)
        × (empty.new ≡ listing_empty a)
        × (new ≡ listing_columns a t (query k) ts te old)
        × (scratch.new ≡ listing_scratch a scratch.old) }
{
    let answer = list_rings(
        days,
        first,
        second,
        Query { k },
        ts,
        te,
        start,
        end,
        rows,
        windows,
        scratch,
    );
    let told = Numbers::from(answer);
    let listed = answer.unwrap_or(Listed {
        count: 0,
        sum: 0,
        empty: 0,
    });
    *place = told.place;
    *count = told.count;
    *sum = listed.sum;
    *empty = listed.empty;
    told.number
}
