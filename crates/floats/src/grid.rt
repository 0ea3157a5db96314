// A float's range test, its number on a grid of k steps to 1 and on which side of it it lies, by whole numbers on the float's bits: of floats there are
// comparisons only, so no rounding mode of the caller changes an answer, nor does one that takes denormals for 0.
ghost use Rattle.std.specs.Prelude.{◌≡◌, ◌^◌, ◌≤◌, ◌<◌, nat_abs};
ghost use Rattle.floats.specs.Grid.{finite, place_of};
ghost use Rattle.floats.specs.Pattern.{digits_of, place_at};

use crate::{Place, Remark};

// A row of the table of ranges: the ends as grid numbers, and the grid's steps to 1.
#[derive(Clone, Copy)]
pub struct Range {
    pub low: i32,
    pub high: i32,
    pub steps: u32,
}

// Neither a NaN nor an infinity, by comparisons alone: the library's own test subtracts.
pub fn is_finite(x: f32) -> bool
    ensures { result ≡ finite x }
{
    f32::NEG_INFINITY < x && x < f32::INFINITY
}

// The digits of a pattern n with n's sign. The leading one is not written: it is there where the exponent's field e is not 0.
fn digits(n: u32, e: u32) -> i64
    ensures { result ≡ digits_of n e }
{
    let t = n % 0x80_0000;
    let m = if e == 0 { t } else { 0x80_0000 + t };
    if n < 0x8000_0000 {
        i64::from(m)
    } else {
        -i64::from(m)
    }
}

impl Range {
    // The place of w / 2^s. A shift rounds down, also below 0, so that the low end is tested on w and the high one on -w. Half
    // steps rounded down, and one more, halved: a half goes up. The same two tests of the number itself tell on which side of it
    // w / 2^s lies.
    fn place_at(self, w: i64, s: u32) -> Option<Place>
        requires w_small { nat_abs w < 2 ^ 44 }
        requires shift { s < 64 }
        ensures { result ≡ place_at self.low self.high w (2 ^ s) }
    {
        let floor = w >> s;
        let minus_ceiling = -w >> s;
        if floor < i64::from(self.low) || minus_ceiling < -i64::from(self.high) {
            return None;
        }
        let number = ((2 * w >> s) + 1) >> 1;
        let remark = if floor < number {
            Remark::Below
        } else if minus_ceiling < -number {
            Remark::Above
        } else {
            Remark::On
        };
        Some(Place { number, remark })
    }

    // The place of x, if the exact product is in the range, ends included: digits times the steps over a power of two that the
    // exponent's field e tells. From 150 on x is an infinity, or 2^23 and more, beyond both ends. Below 88 the power is 2^63 and
    // more, where the product, under 2^44, rounds as over 2^62.
    pub fn place(self, x: f32) -> Option<Place>
        requires steps_least { 1 ≤ self.steps }
        requires steps_most { self.steps ≤ 2 ^ 20 }
        requires low_small { nat_abs self.low < 2 ^ 23 }
        requires high_small { nat_abs self.high < 2 ^ 23 }
        ensures { result ≡ place_of self x }
    {
        if x.is_nan() {
            return None;
        }
        let n = f32::to_bits(x);
        let e = n % 0x8000_0000 / 0x80_0000;
        if 150 <= e {
            return None;
        }
        let s = if e < 88 { 62 } else { 150 - e };
        let w = digits(n, e) * i64::from(self.steps);
        self.place_at(w, s)
    }
}
