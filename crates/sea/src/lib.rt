// Density and bulk modulus of sea water from grid numbers.
#![tactic(auto)]

ghost use Rattle.std.specs.Prelude.{◌≡◌, ◌+ℤ◌};
ghost use Rattle.whole.specs.Arith.{plus, scaled};
ghost use Rattle.sea.specs.Recipe as the;
ghost use Rattle.sea.specs.Sizes.{Sizes, Salty, Stiff, Ranges};
ghost use Rattle.sea.specs.Water.{range_of, water_of, sounding, sounding_of};

mod range;

use crate::range::{Pressure, Root, Salinity, Temperature};
use refusals::Refusal;
use waters::Water;

// The values of the twelve rows at one temperature, in units of 10^-9.
#[derive(Clone, Copy)]
pub struct Rows {
    pub Dw: i64,
    pub Ds: i64,
    pub Dr: i64,
    pub Dss: i64,
    pub Kw: i64,
    pub Ks: i64,
    pub Kr: i64,
    pub Aw: i64,
    pub As: i64,
    pub Ar: i64,
    pub Bw: i64,
    pub Bs: i64,
}

// What salinity and temperature alone decide; a pressure is put to it afterwards.
#[derive(Clone, Copy)]
pub struct Parcel {
    pub d: i64,
    pub k0: i64,
    pub a: i64,
    pub b: i64,
}

// A water at its own pressure, with its density under another one.
#[derive(Clone, Copy)]
pub struct Sounding {
    pub water: Water,
    pub under: u32,
}

// Coefficients in units of 10^-9, lowest power first, noughts past a row's end.
const ROWS: [[i64; 6]; 12] = [
    [
        999842594000,
        6793952000,
        -90952900000,
        100168500000,
        -112008300000,
        65363320000,
    ],
    [
        82449300000,
        -40899000000,
        76438000000,
        -82467000000,
        53875000000,
        0,
    ],
    [-5724660000, 10227000000, -16546000000, 0, 0, 0],
    [4831400000, 0, 0, 0, 0, 0],
    [
        19652210000000,
        14842060000000,
        -23271050000000,
        13604770000000,
        -5155288000000,
        0,
    ],
    [
        5467460000000,
        -6034590000000,
        10998700000000,
        -6167000000000,
        0,
        0,
    ],
    [79440000000, 1648300000000, -5300900000000, 0, 0, 0],
    [
        3239908000000,
        143713000000,
        1160920000000,
        -577905000000,
        0,
        0,
    ],
    [228380000000, -109810000000, -1607800000000, 0, 0, 0],
    [191075000000, 0, 0, 0, 0, 0],
    [85093500000, -612293000000, 527870000000, 0, 0, 0],
    [-99348000000, 208160000000, 916970000000, 0, 0, 0],
];

// Each row is picked by a constant, so that nothing of the table is left to look up in the compiled code.
fn rows_at(tau: Temperature) -> Rows
    ensures { result ≡ the.rows_at tau.number }
{
    let table = ROWS;
    let tau = tau.number;
    Rows {
        Dw: whole::row_value(table[0], tau),
        Ds: whole::row_value(table[1], tau),
        Dr: whole::row_value(table[2], tau),
        Dss: whole::row_value(table[3], tau),
        Kw: whole::row_value(table[4], tau),
        Ks: whole::row_value(table[5], tau),
        Kr: whole::row_value(table[6], tau),
        Aw: whole::row_value(table[7], tau),
        As: whole::row_value(table[8], tau),
        Ar: whole::row_value(table[9], tau),
        Bw: whole::row_value(table[10], tau),
        Bs: whole::row_value(table[11], tau),
    }
}

// The surface density D.
fn surface(r: Rows, sigma: Salinity, w: Root) -> i64
    requires { Sizes r }
    ensures { result ≡ the.surface r (plus sigma.number) (plus w.number) }
{
    let sigma = sigma.number;
    let rooted = whole::step(r.Ds, r.Dr, w.number);
    whole::step(r.Dw, whole::step(rooted, r.Dss, sigma), sigma)
}

// x plus the scaled product by sigma of y plus the scaled product by w of z: the shape of K0 and of A.
fn salted(x: i64, y: i64, z: i64, sigma: Salinity, w: Root) -> i64
    requires { Salty x y z sigma.number w.number }
    ensures { result ≡ x +ℤ scaled (y +ℤ scaled z w.number) sigma.number }
{
    whole::step(x, whole::step(y, z, w.number), sigma.number)
}

// What the row values and the root make at one salinity.
fn combined(r: Rows, sigma: Salinity, w: Root) -> Parcel
    requires { Sizes r }
    ensures { result ≡ the.parcel_of r (plus sigma.number) (plus w.number) }
{
    let d = surface(r, sigma, w);
    let k0 = salted(r.Kw, r.Ks, r.Kr, sigma, w);
    let a = salted(r.Aw, r.As, r.Ar, sigma, w);
    let b = whole::step(r.Bw, r.Bs, sigma.number);
    Parcel { d, k0, a, b }
}

// The water of one salinity and temperature, before any pressure.
fn parcel_at(sigma: Salinity, tau: Temperature) -> Parcel
    ensures { result ≡ the.parcel_at (plus sigma.number) tau.number }
{
    let rows = rows_at(tau);
    let w = whole::root(whole::unsigned(sigma.number) * 100000);
    let number = whole::signed(w);
    combined(rows, sigma, Root { number })
}

// The bulk modulus K at a pressure.
fn bulk(x: Parcel, pi: Pressure) -> i64
    requires { Stiff x pi.number }
    ensures { result ≡ the.bulk x.k0 x.a x.b (plus pi.number) }
{
    let pi = pi.number;
    whole::step(x.k0, whole::step(x.a, x.b, pi), pi)
}

// The shown density, from D and K in units of 10^-9.
// (By what is asked the cast loses nothing, here and in `pressed`; `try_from` would answer an error that cannot come.)
fn compressed(d: i64, k: i64, pi: Pressure) -> u32
    requires { Ranges d k (plus pi.number) }
    ensures { result ≡ the.shown d k (plus pi.number) }
{
    let p = 1000 * whole::unsigned(pi.number);
    let m = whole::unsigned(d) / 1000;
    let n = whole::unsigned(k) / 10000 - p;
    ((m + m * p / n + 500) / 1000) as u32
}

// Density and bulk modulus of a water under a pressure.
fn pressed(x: Parcel, pi: Pressure) -> Water
    requires stiff { Stiff x pi.number }
    requires ranges { Ranges x.d (the.bulk x.k0 x.a x.b (plus pi.number)) (plus pi.number) }
    ensures { result ≡ the.pressed_of x (plus pi.number) }
{
    let k = bulk(x, pi);
    let density = compressed(x.d, k, pi);
    let bulk = (whole::unsigned(k) / 10000000) as u32;
    Water { density, bulk }
}

// The water of a point of the grid, and its density under the pressure `deep`: the rows are worked out once, and at its own pressure nothing twice.
// Out of line, so that the root's code stands in one place.
#[inline(never)]
fn sounded(sigma: Salinity, tau: Temperature, pi: Pressure, deep: Pressure) -> Sounding
    ensures { result ≡ sounding (the.shown_at (plus sigma.number) tau.number (plus pi.number)) (the.modulus_at (plus sigma.number) tau.number (plus pi.number)) (the.shown_at (plus sigma.number) tau.number (plus deep.number)) }
{
    let parcel = parcel_at(sigma, tau);
    let water = pressed(parcel, pi);
    if deep.number == pi.number {
        return Sounding {
            water,
            under: water.density,
        };
    }
    let other = pressed(parcel, deep);
    Sounding {
        water,
        under: other.density,
    }
}

// Whether z is from low to high, ends included.
pub fn within(z: i64, low: i64, high: i64) -> bool
    ensures { result ≡ range_of low high z }
{
    (low..=high).contains(&z)
}

// Density and bulk modulus at the grid numbers sigma (0.001), tau (0.001 degrees) and pi (0.01 bar), and the density of the same water under the
// pressure `deep`. (Plain numbers, as the C interface gives them. Each check is taken apart by `let .. else`, as SPEC wants it where the first that applies is
// the answer.)
pub fn sounding_at(sigma: i64, tau: i64, pi: i64, deep: i64) -> Result<Sounding, Refusal>
    ensures { result ≡ sounding_of sigma tau pi deep }
{
    let Some(sigma) = Salinity::of(sigma) else {
        return Err(Refusal::Salinity);
    };
    let Some(tau) = Temperature::of(tau) else {
        return Err(Refusal::Temperature);
    };
    let Some(pi) = Pressure::of(pi) else {
        return Err(Refusal::Pressure);
    };
    let Some(deep) = Pressure::of(deep) else {
        return Err(Refusal::Pressure);
    };
    Ok(sounded(sigma, tau, pi, deep))
}

// Density and bulk modulus alone.
pub fn water_at(sigma: i64, tau: i64, pi: i64) -> Result<Water, Refusal>
    ensures { result ≡ water_of sigma tau pi }
{
    sounding_at(sigma, tau, pi, pi).map(|found| found.water)
}
