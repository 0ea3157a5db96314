// What a channel and a needle answer.
#![tactic(auto)]

ghost use Rattle.std.specs.Prelude.{◌≡◌};
ghost use Rattle.channels.specs.Numbers.{channel_water, stop_number};

use readings::{Point, Remarks};
use refusals::{Reason, Refusal};
use waters::Water;

// A reading that is accepted: the grid numbers, the water there, and on which side of its grid point each float lies.
#[derive(Clone, Copy)]
pub struct Accepted {
    pub at: Point,
    pub water: Water,
    pub remarks: Remarks,
}

// A channel's answer.
pub type Channel = Result<Accepted, Refusal>;

// Why there is no needle: the left is refused, the right is, or one probe stands on both sides.
#[derive(Clone, Copy)]
pub enum Stop {
    Left(Refusal),
    Right(Refusal),
    SameProbe,
}

impl Reason for Stop {
    ghost numbered = { stop_number };

    fn number(self) -> u32 {
        match self {
            Stop::Left(why) => 100 + why.number(),
            Stop::Right(why) => 200 + why.number(),
            Stop::SameProbe => Refusal::SameProbe.number(),
        }
    }
}

// The needle: right minus left in 0.001 kg/m3; or why there is none.
pub type Needle = Result<i64, Stop>;

// Two channels and their needle.
#[derive(Clone, Copy)]
pub struct Comparison {
    pub left: Channel,
    pub right: Channel,
    pub needle: Needle,
}

// A channel's water, of which `waters` has SPEC's values: a refused channel has noughts. (Its number, and a needle's, is `refusals::number`.)
pub fn water(channel: Channel) -> Result<Water, Refusal>
    ensures { result ≡ channel_water channel }
{
    channel.map(|accepted| accepted.water)
}
