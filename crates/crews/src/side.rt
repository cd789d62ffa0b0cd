// The two sides of a bench, and the numbers by which callers name them.
ghost use Rattle.std.specs.Prelude.{◌≡◌};
ghost use Rattle.crews.specs.Sides.{NamesSide, across_from};

use net::{Fault, Refusal};

#[derive(Clone, Copy)]
pub(crate) enum Side {
    Left,
    Right,
}

impl Side {
    // The side across.
    pub(crate) fn other(self) -> Side
        ensures { result ≡ across_from self }
    {
        match self {
            Side::Left => Side::Right,
            Side::Right => Side::Left,
        }
    }
}

// 0 names the left side and 1 the right one. Any other number is refused.
impl TryFrom<usize> for Side {
    type Error = Fault;

    ghost try_from_gives = { NamesSide };

    fn try_from(number: usize) -> Result<Side, Fault> {
        match number {
            0 => Ok(Side::Left),
            1 => Ok(Side::Right),
            _ => Err(Fault::plain(Refusal::UnknownSide)),
        }
    }
}
