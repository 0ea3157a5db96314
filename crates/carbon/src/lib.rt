// How much carbon dioxide a water will hold: ln K0 of Weiss (1974), in millionths.
#![tactic(auto)]

ghost use Rattle.std.specs.Prelude.{◌≡◌, ◌+◌, ◌≤◌, pos, nat_abs};
ghost use Rattle.whole.specs.Arith.{plus, minus, scaled, row_value};
ghost use Rattle.carbon.specs.Weiss.{rest_terms, odd, ln_t, by_cold, by_log, salts, kelvin, ln_k0};
ghost use Rattle.carbon.specs.Carbon.{unpressed, solubility_of};

use readings::{Entry, Purpose, Report};
use refusals::Refusal;

// ln K0 in millionths, or why not.
pub type Solubility = Result<i64, Refusal>;

// ln 3 in 10^-11, from 16 terms of its series.
const LN3: u64 = 109_861_228_850;

// A temperature from 0 to 40 °C, in thousandths of a kelvin.
#[derive(Clone, Copy)]
struct Warmth {
    number: u64,
    ghost in_range: { (273_150 ≤ number) × (number ≤ 313_150) },
}

// The odd series in x/y, four terms, in 10^-11.
fn odd_series(x: u64, y: u64) -> u64
    requires x_most { x ≤ 26_850 }
    requires y_least { 573_150 ≤ y }
    requires y_most { y ≤ 613_150 }
    ensures { result ≡ odd x y rest_terms }
{
    let a = x * x;
    let b = y * y;
    let first = 100_000_000_000 * x / y;
    let third = first * a / b;
    let fifth = third * a / b;
    let seventh = fifth * a / b;
    first + third / 3 + fifth / 5 + seventh / 7
}

// ln(T/100) for T of n thousandths of a kelvin, from ln 3.
fn ln_t(n: Warmth) -> u64
    ensures { result ≡ ln_t n.number }
{
    let n = n.number;
    let twice = 2 * odd_series(n.abs_diff(300_000), n + 300_000);
    if n < 300_000 {
        return LN3 - twice;
    }
    LN3 + twice
}

// The two terms of the temperature alone.
fn by_warmth(n: Warmth) -> u64
    ensures { result ≡ by_cold n.number + by_log n.number }
{
    934_517_000_000_000_000 / n.number + 233_585 * ln_t(n) / 10_000
}

// What the salinity adds.
fn by_salt(sigma: i64, n: Warmth) -> i64
    requires { nat_abs sigma ≤ 42_000 }
    ensures { result ≡ scaled (row_value salts (pos n.number)) sigma }
{
    let n = whole::signed(n.number);
    let inner = -236_560_000_000 + whole::scaled(47_036_000_000, n);
    let row = 235_170_000_000 + whole::scaled(inner, n);
    whole::scaled(row, sigma)
}

// ln K0 at a point of the grid that is not below 0 °C. The last scaled product, by 1, is the rounding.
fn ln_k0(sigma: i64, tau: i64) -> i64
    requires sigma_whole { minus sigma ≡ 0 }
    requires sigma_most { plus sigma ≤ 42_000 }
    requires tau_whole { minus tau ≡ 0 }
    requires tau_most { plus tau ≤ 40_000 }
    ensures { result ≡ ln_k0 (plus sigma) (kelvin tau) }
{
    let number = whole::unsigned(tau) + 273_150;
    let n = Warmth { number };
    let warmth = whole::signed(by_warmth(n) + 50_000);
    let salt = by_salt(sigma, n);
    whole::scaled(warmth + salt - 6_024_090_000_000, 1)
}

// A report without its pressure.
fn unpressed(report: Report) -> Report
    ensures { result ≡ unpressed report }
{
    match report {
        Report::Deep(salinity, temperature, _) => Report::Surface(salinity, temperature),
        _ => report,
    }
}

// ln K0 of what stands in a channel.
pub fn answer(entry: Entry) -> Solubility
    ensures { result ≡ solubility_of entry }
{
    let message = entry?;
    let Report::Surface(salinity, temperature) = unpressed(message.report) else {
        return Err(Refusal::Missing);
    };
    let taken = readings::check_surface(salinity, temperature, Purpose::Carbon)?;
    Ok(ln_k0(taken.at.sigma, taken.at.tau))
}
