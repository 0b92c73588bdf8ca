// The payments of an accepted table: its three columns, lent together. Columns, since the C interface lends a table so.
ghost use Rattle.rings.specs.Sound.{Sound};

// It goes by value through every function behind the table check, which has found what `sound` says.
#[derive(Clone, Copy)]
pub struct Payments<'a> {
    pub days: &'a [u16],
    pub first: &'a [u16],
    pub second: &'a [u16],
    ghost sound: { Sound days.now first.now second.now },
}
