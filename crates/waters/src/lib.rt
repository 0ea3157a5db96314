// The answer for grid numbers.
#![tactic(auto)]

ghost use Rattle.std.specs.Prelude.{◌≡◌};
ghost use Rattle.waters.specs.Numbers.{water_density, water_bulk};

use refusals::Refusal;

// The shown density in 0.001 kg/m3 and the bulk modulus in 0.01 bar.
#[derive(Clone, Copy)]
pub struct Water {
    pub density: u32,
    pub bulk: u32,
}

// SPEC's values for each case: a refused water has noughts. (Its number is `refusals::number`.)
pub fn density(water: Result<Water, Refusal>) -> u32
    ensures { result ≡ water_density water }
{
    water.map_or(0, |known| known.density)
}

pub fn bulk(water: Result<Water, Refusal>) -> u32
    ensures { result ≡ water_bulk water }
{
    water.map_or(0, |known| known.bulk)
}
