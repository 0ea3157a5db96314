// From a probe's report to the grid numbers of its reading and their remarks, or to the first refusal that applies.
#![tactic(auto)]

ghost use Rattle.std.specs.Prelude.{◌≡◌};
ghost use Rattle.readings.specs.declared.Purpose.{Purpose};
ghost use Rattle.readings.specs.declared.Report.{Report};
ghost use Rattle.readings.specs.Check.{coldest, surface_of, given_of, finite_of, level_for, put_together, placed_for, in_order, checked_for, checked_of};

use floats::grid::{self, Range};
use floats::{Place, Remark};
use refusals::{Refusal, Unread};

// A probe's report: salinity, temperature, pressure.
#[derive(Clone, Copy)]
pub enum Report {
    Deep(f32, f32, f32),
    Surface(f32, f32),
    Missing,
}

// What a probe sends: its number and its report. (0 is no number: SPEC and the C interface give it so, and the theorems on numbers speak of it.)
#[derive(Clone, Copy)]
pub struct Message {
    pub probe: u16,
    pub report: Report,
}

// What stands in a channel: a probe's message; or why its record gave none, 6, 7 or 8 and no other number.
pub type Entry = Result<Message, Unread>;

// Practical salinity, temperature in °C, pressure in bar above the atmosphere.
#[derive(Clone, Copy)]
pub struct Reading {
    pub salinity: f32,
    pub temperature: f32,
    pub pressure: f32,
}

// The grid numbers σ, τ, π.
#[derive(Clone, Copy)]
pub struct Point {
    pub sigma: i64,
    pub tau: i64,
    pub pi: i64,
}

// On which side of its grid point each float lies.
#[derive(Clone, Copy)]
pub struct Remarks {
    pub salinity: Remark,
    pub temperature: Remark,
    pub pressure: Remark,
}

// A reading that is taken.
#[derive(Clone, Copy)]
pub struct Taken {
    pub at: Point,
    pub remarks: Remarks,
}

pub type Checked = Result<Taken, Refusal>;

// What a reading is wanted for: the table of ranges has a column for each.
#[derive(Clone, Copy)]
pub enum Purpose {
    Density,
    Carbon,
}

impl Purpose {
    // The low end of its temperatures, as a grid number.
    pub fn coldest(self) -> i32
        ensures { result ≡ coldest self }
    {
        match self {
            Purpose::Density => Reading::TEMPERATURE.low,
            Purpose::Carbon => 0,
        }
    }
}

impl Taken {
    // From the places of salinity, temperature and pressure.
    fn put_together(sigma: Place, tau: Place, pi: Place) -> Taken
        ensures { result ≡ put_together sigma tau pi }
    {
        Taken {
            at: Point {
                sigma: sigma.number,
                tau: tau.number,
                pi: pi.number,
            },
            remarks: Remarks {
                salinity: sigma.remark,
                temperature: tau.remark,
                pressure: pi.remark,
            },
        }
    }
}

// The places of salinity and temperature.
#[derive(Clone, Copy)]
struct Level {
    sigma: Place,
    tau: Place,
}

impl Reading {
    // The table of ranges, with the density's low end of temperatures. (`Purpose::coldest` has each purpose's own.)
    pub const SALINITY: Range = Range {
        low: 0,
        high: 42_000,
        steps: 1000,
    };

    pub const TEMPERATURE: Range = Range {
        low: -2_000,
        high: 40_000,
        steps: 1000,
    };

    pub const PRESSURE: Range = Range {
        low: 0,
        high: 100_000,
        steps: 100,
    };

    // At the surface the pressure is taken as 0.
    pub fn surface(salinity: f32, temperature: f32) -> Reading
        ensures { result ≡ surface_of salinity temperature }
    {
        Reading {
            salinity,
            temperature,
            pressure: 0.0,
        }
    }

    // Whether none of the three is a NaN or an infinity.
    pub fn finite(self) -> bool
        ensures { result ≡ finite_of self }
    {
        grid::is_finite(self.salinity)
            && grid::is_finite(self.temperature)
            && grid::is_finite(self.pressure)
    }

    // Checks 3 and 4. (Each check, here and below, is taken apart by `let .. else`, as SPEC wants it where the first that applies is the answer.) In line at both of
    // its places: out of line ln K0 took a quarter more instructions.
    #[inline(always)]
    fn level(self, purpose: Purpose) -> Result<Level, Refusal>
        ensures { result ≡ level_for purpose self }
    {
        let Some(sigma) = Reading::SALINITY.place(self.salinity) else {
            return Err(Refusal::Salinity);
        };
        let temperatures = Range {
            low: purpose.coldest(),
            ..Reading::TEMPERATURE
        };
        let Some(tau) = temperatures.place(self.temperature) else {
            return Err(Refusal::Temperature);
        };
        Ok(Level { sigma, tau })
    }

    // Checks 3, 4 and 5.
    fn placed(self) -> Checked
        ensures { result ≡ placed_for Purpose.Density self }
    {
        let Level { sigma, tau } = self.level(Purpose::Density)?;
        let Some(pi) = Reading::PRESSURE.place(self.pressure) else {
            return Err(Refusal::Pressure);
        };
        Ok(Taken::put_together(sigma, tau, pi))
    }

    // Checks 2 to 5.
    fn checked(self) -> Checked
        ensures { result ≡ in_order Purpose.Density (Some self) (finite_of self) }
    {
        let true = self.finite() else {
            return Err(Refusal::NotFinite);
        };
        self.placed()
    }
}

impl Report {
    // The reading in it: at the surface the pressure is 0.
    pub fn reading(self) -> Option<Reading>
        ensures { result ≡ given_of self }
    {
        match self {
            Report::Deep(salinity, temperature, pressure) => Some(Reading {
                salinity,
                temperature,
                pressure,
            }),
            Report::Surface(salinity, temperature) => Some(Reading::surface(salinity, temperature)),
            Report::Missing => None,
        }
    }
}

// Checks 1 to 5 in SPEC's order, with the density's ranges: the first that applies is the answer.
pub fn check(report: Report) -> Checked
    ensures { result ≡ checked_of report }
{
    let Some(reading) = report.reading() else {
        return Err(Refusal::Missing);
    };
    reading.checked()
}

// Checks 2 to 4 of a reading at the surface, for a purpose that reads no pressure, which has its place already: it is on 0. It is no case of `check`, which
// would test the pressure too.
pub fn check_surface(salinity: f32, temperature: f32, purpose: Purpose) -> Checked
    ensures { result ≡ checked_for purpose (Report.Surface salinity temperature) }
{
    let reading = Reading::surface(salinity, temperature);
    let true = reading.finite() else {
        return Err(Refusal::NotFinite);
    };
    let Level { sigma, tau } = reading.level(purpose)?;
    let on_nought = Place {
        number: 0,
        remark: Remark::On,
    };
    Ok(Taken::put_together(sigma, tau, on_nought))
}
