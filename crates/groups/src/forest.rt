// A forest of accounts: each has a parent, itself or one below. So a tree's root is its smallest account, and once
// every row of the ring has joined the trees of its two accounts, the root is the label.
ghost use Rattle.std.specs.Prelude.{◌≡◌, ◌≤◌, ◌<◌, get_or};
ghost use Rattle.rings.specs.Table.{size};
ghost use Rattle.groups.specs.Groups.{leader};
ghost use Rattle.groups.specs.Inner.{Forest, Found, Points, Joins, Grown, Leaders, Flattens};
ghost use Rattle.groups.specs.RingRows.{table_in, marked_in};

use crate::rows::Ring;
use rings::ACCOUNTS;
use rings::choice::pick;

// Parents are numbers, a number for each account: the lent scratch holds numbers.
// No struct for the forest that five contracts ask for: each would promise that it still holds the same parents.
// No type for an account below 4,096, asked for by four: it would be made and taken apart at each step of a walk.

// Every account is a root. rings lists all accounts so, in front of a queue: a function for both would be no shorter.
fn plant(parents: &mut [u16; ACCOUNTS])
    ensures { Leaders parents.new (λ u. u) }
{
    for x in 0..ACCOUNTS {
        parents[x] = x as u16;
    }
}

// The parent of x.
fn parent(parents: &[u16; ACCOUNTS], x: usize) -> u16
    requires forest { Forest parents.now }
    requires x_bound { x < 4096 }
    ensures value { result ≡ get_or parents.now x 0 }
    ensures upper_bound { result ≤ x }
{
    parents[x]
}

// The root of x. Each second account on the way gets its parent's parent, so the way is halved for the next walk.
fn find(parents: &mut [u16; ACCOUNTS], x: usize) -> u16
    requires forest { Forest parents.old }
    requires x_bound { x < 4096 }
    ensures { Found parents.old parents.new x result }
{
    let mut y = x;
    let mut up = parent(parents, y);
    let mut next = parent(parents, up as usize);
    // From parent to parent: nothing counts these steps.
    while next != up {
        parents[y] = next;
        y = next as usize;
        up = parent(parents, y);
        next = parent(parents, up as usize);
    }
    up
}

// An account's parent becomes its root; `was` is the parent that it had before. What would change nothing is not
// written: the next row may wait for what is written here.
fn point(parents: &mut [u16; ACCOUNTS], x: usize, was: u16, root: u16)
    requires forest { Forest parents.old }
    requires x_bound { x < 4096 }
    requires root_le_x { root ≤ x }
    ensures { Points parents.old parents.new x root }
{
    if was != root {
        parents[x] = root;
    }
}

// The trees of a and b become one, under the smaller of their roots.
fn join(parents: &mut [u16; ACCOUNTS], a: usize, b: usize)
    requires forest { Forest parents.old }
    requires a_bound { a < 4096 }
    requires b_bound { b < 4096 }
    ensures { Joins parents.old parents.new a b }
{
    let p = parent(parents, a);
    let q = parent(parents, b);
    let x = find(parents, a);
    let y = find(parents, b);
    let root = x.min(y);
    parents[x.max(y) as usize] = root;
    point(parents, a, p, root);
    point(parents, b, q, root);
}

// Every row that is marked joins its two accounts. Where these have one parent there is nothing to do, as for a row
// that is not marked.
fn join_rows(ring: Ring, parents: &mut [u16; ACCOUNTS])
    requires { Leaders parents.old (λ u. u) }
    ensures { let t = table_in ring.entry in
        Grown parents.new (leader t (marked_in ring.entry) (size t)) }
{
    for j in ring.rows.lo..ring.rows.end {
        let a = ring.first[j] as usize;
        let b = ring.second[j] as usize;
        let p = parent(parents, a);
        let q = pick(ring.marks[j] == 0, p, parent(parents, b));
        if p != q {
            join(parents, a, b);
        }
    }
}

// Every parent becomes its root: in rising order, where the parent of a parent is its root already.
fn flatten(parents: &mut [u16; ACCOUNTS])
    requires { Forest parents.old }
    ensures { Flattens parents.old parents.new }
{
    for x in 0..ACCOUNTS {
        let up = parent(parents, x);
        parents[x] = parent(parents, up as usize);
    }
}

// The leader of each account, by the rows that are marked.
pub(crate) fn find_leaders(ring: Ring, parents: &mut [u16; ACCOUNTS])
    ensures { let t = table_in ring.entry in
        Leaders parents.new (leader t (marked_in ring.entry) (size t)) }
{
    plant(parents);
    join_rows(ring, parents);
    flatten(parents);
}
