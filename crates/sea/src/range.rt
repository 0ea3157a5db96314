// The numbers of the grid, and the root, each in its range.
#![tactic(auto)]

ghost use Rattle.std.specs.Prelude.{◌≡◌, pos, is_some, IfSome};
ghost use Rattle.whole.specs.Arith.{neg};
ghost use Rattle.sea.specs.Sizes.{Lies};
ghost use Rattle.sea.specs.Water.{range_of};

use crate::within;

// A number from -BELOW to ABOVE, ends included.
#[derive(Clone, Copy)]
pub(crate) struct Within<const BELOW: u32, const ABOVE: u32> {
    pub number: i64,
    ghost in_range: { Lies (neg BELOW) (pos ABOVE) number },
}

pub(crate) type Salinity = Within<0, 42000>;

pub(crate) type Temperature = Within<2000, 40000>;

pub(crate) type Pressure = Within<0, 100000>;

// The root that stands for a salinity's.
pub(crate) type Root = Within<0, 64807>;

impl<const BELOW: u32, const ABOVE: u32> Within<BELOW, ABOVE> {
    // The number, if it is in the range. (Not by `then`: the checker does not cover a closure whose result has the type's constants, which nothing that it takes
    // names.)
    pub(crate) fn of(number: i64) -> Option<Self>
        ensures known { is_some result ≡ range_of (neg BELOW) (pos ABOVE) number }
        ensures same { IfSome result (λ z. z.number ≡ number) }
    {
        if within(number, -i64::from(BELOW), i64::from(ABOVE)) {
            Some(Within { number })
        } else {
            None
        }
    }
}
