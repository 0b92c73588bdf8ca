// Single numbers of a lent slice: read as an index, and stored.
ghost use Rattle.std.specs.Prelude.{◌≡◌, ◌<◌, length, get_or, set};
ghost use Rattle.rings.specs.Inner.Adjacency.{Storable};

// A 16-bit number as an index.
pub(crate) fn wide(x: u16) -> usize
    ensures { result ≡ x }
{
    x as usize
}

// An entry of a column as an index.
pub(crate) fn entry(column: &[u16], j: usize) -> usize
    requires { j < length column.now }
    ensures { result ≡ get_or column.now j 0 }
{
    wide(column[j])
}

// A number goes into a place.
pub(crate) fn put(s: &mut [u16], i: usize, n: usize)
    requires { Storable s.old i n }
    ensures { s.new ≡ set s.old i n }
{
    s[i] = n as u16;
}
