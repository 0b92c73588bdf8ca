// A pruned adjacency: from an account without a core time no ring is ever met again, as core times never fall,
// so the rows whose other account it is need no walk. prune takes them out of the adjacency, each account's own
// places for itself,
// and the rest stays in rising order.
ghost use Rattle.rings.specs.Payments.{table};
ghost use Rattle.rings.specs.Inner.Peeling.{estimate};
ghost use Rattle.rings.specs.Inner.Adjacency.{Prunable, Pruned, Whole, AllPruned};

use crate::choice::one;
use crate::incident::row_at;
use crate::limits::{ACCOUNTS, ADJACENCY, NEVER};
use crate::payments::Payments;
use crate::slices::{entry, put, wide};

// What stands under u, without the rows whose other account has no time.
// Each row is written, and the place moves on behind those that stay: no branch, as in a scan.
fn prune_account(payments: Payments<'_>, scratch: &mut [u16], times: &[u16], u: usize)
    requires { Prunable (table payments) scratch.old times.now u }
    ensures { let t = table payments.entry in
        Pruned t (estimate times.now) u scratch.old scratch.new }
{
    let last = entry(scratch, u);
    let head = entry(scratch, ACCOUNTS + u);
    let mut end = head;
    for p in head..last {
        let here = row_at(payments, scratch, 0, u, p);
        let v = here.other;
        let timed = times[v] != NEVER;
        put(scratch, ADJACENCY + end, here.row);
        end += wide(one(timed));
    }
    put(scratch, u, end);
}

// The rows whose other account has no time go from the adjacency. What stands under such an account itself stays:
// nobody walks it.
pub(crate) fn prune(payments: Payments<'_>, scratch: &mut [u16], day: u16, times: &[u16])
    requires { Whole (table payments) scratch.old day times.now }
    ensures { let t = table payments.entry in
        AllPruned t (estimate times.now) scratch.old scratch.new }
{
    for u in 0..ACCOUNTS {
        if times[u] != NEVER {
            prune_account(payments, scratch, times, u);
        }
    }
}
