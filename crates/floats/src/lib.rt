// What is said of one float, whatever it measures: its place on a grid, the float for the recorder, a float from its four
// bytes. The inside of the engine: what `Range::place` asks for keeps its words from overflowing, and the calls above it see to it.
#![tactic(auto)]

ghost use Rattle.std.specs.Prelude.{◌≡◌, slice_index};
ghost use Rattle.floats.specs.Grid.{remark_number};
ghost use Rattle.floats.specs.Recorder.{recorder_of};
ghost use Rattle.floats.specs.Bytes.{float_of};

pub mod grid;

// On which side of its grid point a float's exact value lies.
#[derive(Clone, Copy)]
pub enum Remark {
    Below = 1,
    On = 2,
    Above = 3,
}

impl Remark {
    // Its number, from 1: 0 is kept for none.
    pub fn number(self) -> u32
        ensures { result ≡ remark_number self }
    {
        self as u32
    }
}

// Where a float inside its range stands on its grid, and on which side of that point it lies.
#[derive(Clone, Copy)]
pub struct Place {
    pub number: i64,
    pub remark: Remark,
}

// The float for the recorder: the cast is exact, and the float stands for the shown number alone. No density reaches 16,384,000.
pub fn recorder(shown: u32) -> f32
    ensures { result ≡ recorder_of shown }
{
    if shown < 16_384_000 {
        shown as f32 / 1000.0
    } else {
        0.0
    }
}

// The float whose bit pattern stands in four bytes, the lowest first. Every NaN's pattern gives the one NaN.
pub fn float_of(bytes: [u8; 4]) -> f32
    ensures { result ≡ float_of (slice_index bytes 0) (slice_index bytes 1) (slice_index bytes 2) (slice_index bytes 3) }
{
    let n = u32::from_le_bytes(bytes);
    if 0x7f80_0000 < n % 0x8000_0000 {
        f32::NAN
    } else {
        f32::from_bits(n)
    }
}
