// Whether a water of the grid is frozen: the freezing point of UNESCO's paper 44, in whole numbers.
#![tactic(auto)]

ghost use Rattle.std.specs.Prelude.{◌≡◌, pos};
ghost use Rattle.whole.specs.Arith.{neg, plus};
ghost use Rattle.whole.specs.Order.{Lies};
ghost use Rattle.freezing.specs.Ice.{ice_at, frozen_of};

// The freezing point of a salinity under a pressure, in 10^-9 degrees. (It asks for plain numbers of the grid, as `frozen_at` does: both are promised so in
// docs/PROMISES.md.)
pub fn point_at(sigma: i64, pi: i64) -> i64
    requires salinity { Lies (pos 0) (pos 42_000) sigma }
    requires pressure { Lies (pos 0) (pos 100_000) pi }
    ensures { result ≡ ice_at (plus sigma) (plus pi) }
{
    let w = whole::root_at(sigma);
    let rooted = whole::step(-5_750_000_000, 1_710_523_000, w);
    let salt = whole::scaled(whole::step(rooted, -2_154_996_000, sigma), sigma);
    whole::step(salt, -7_530_000_000, pi)
}

// Whether a water is frozen, colder than its freezing point: check 9. No freezing point lies above the line that is tried first, so that a water on it or
// above it, as nearly all are, needs no root.
pub fn frozen_at(sigma: i64, tau: i64, pi: i64) -> bool
    requires salinity { Lies (pos 0) (pos 42_000) sigma }
    requires temperature { Lies (neg 2_000) (pos 40_000) tau }
    requires pressure { Lies (pos 0) (pos 100_000) pi }
    ensures { result ≡ frozen_of (plus sigma) tau (plus pi) }
{
    let warmth = tau * 1_000_000;
    warmth < -54_105 * sigma - 75_300 * pi && warmth < point_at(sigma, pi)
}
