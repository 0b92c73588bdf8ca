// Choices without a branch: what a processor cannot foresee is better computed.
ghost use Rattle.std.specs.Prelude.{◌≡◌};
ghost use Rattle.rings.specs.Choice.{Picked};

// 1 where the test holds, else 0.
pub fn one(test: bool) -> u16
    ensures { Picked test 1 0 result }
{
    if test { 1 } else { 0 }
}

// The first of two numbers where the test holds, else the second.
pub fn pick(test: bool, x: u16, y: u16) -> u16
    ensures { Picked test x y result }
{
    if test { x } else { y }
}
