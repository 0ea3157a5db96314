// The panel for programs in other languages: the C ABI. Every function answers every argument.
#![tactic(auto)]

ghost use Rattle.std.specs.Prelude.{◌≡◌, length};
ghost use Rattle.std.proofs.lemmas.List.Edits.{sets};
ghost use Rattle.floats.specs.Recorder.{recorder_of};
ghost use Rattle.sea.specs.Water.{water_of};
ghost use Rattle.waters.specs.Numbers.{water_number, water_density, water_bulk};
ghost use Rattle.roots.specs.Search.{search_of, search_number, search_words};
ghost use Rattle.carbon.specs.Carbon.{solubility_of, solubility_number, solubility_value};
ghost use Rattle.channels.specs.Numbers.{channel_number, needle_number};
ghost use Rattle.panel.specs.Panel.{channel_of, comparison_of};
ghost use Rattle.pairs.specs.Pairs.{pairs};
ghost use Rattle.streams.specs.Nth.{nth_of};
ghost use Rattle.cells.specs.Cells.{written};
ghost use Rattle.texts.specs.Text.{line_of};
ghost use Rattle.lines.specs.Line.{wrote_of, wrote_number, wrote_count};
ghost use Rattle.pages.specs.Page.{page_of, filled_of, filled_number, filled_count};
ghost use Rattle.abi.specs.Abi.{version, entry_of, channel_words, comparison_words, found_number, found_words};

use channels::{Accepted, Channel, Comparison};
use refusals::Refusal;
use roots::Search;

pub const VERSION: u32 = 4;

// The ABI's own number.
#[unsafe(no_mangle)]
pub extern "C" fn warpsorrel_version() -> u32
    ensures { result ≡ version }
{
    VERSION
}

// ---- grid numbers: sigma (salinity in 0.001), tau (0.001 degrees C), pi (0.01 bar)

// 0, or the refusal 3, 4 or 5.
#[unsafe(no_mangle)]
pub extern "C" fn warpsorrel_refusal(sigma: i64, tau: i64, pi: i64) -> u32
    ensures { result ≡ water_number (water_of sigma tau pi) }
{
    refusals::number(&sea::water_at(sigma, tau, pi))
}

// The shown density in 0.001 kg/m3; 0 if refused.
#[unsafe(no_mangle)]
pub extern "C" fn warpsorrel_density(sigma: i64, tau: i64, pi: i64) -> u32
    ensures { result ≡ water_density (water_of sigma tau pi) }
{
    waters::density(sea::water_at(sigma, tau, pi))
}

// The bulk modulus in 0.01 bar; 0 if refused.
#[unsafe(no_mangle)]
pub extern "C" fn warpsorrel_bulk(sigma: i64, tau: i64, pi: i64) -> u32
    ensures { result ≡ water_bulk (water_of sigma tau pi) }
{
    waters::bulk(sea::water_at(sigma, tau, pi))
}

// The root that a salinity's reading uses, and the line of its search after so many trials (docs/ROOT.md): 0 or the refusal 3; out gets the root, the
// trial bit, the rest and the root so far, four noughts if refused.
#[unsafe(no_mangle)]
pub extern "C" fn warpsorrel_root(sigma: i64, trials: u32, out: &mut [u64; 4]) -> u32
    ensures answer { result ≡ search_number (search_of sigma trials) }
    ensures numbers { out.new ≡ sets out.old 0 (search_words (search_of sigma trials)) }
{
    let found = roots::search_at(sigma, trials);
    *out = root_row(found);
    refusals::number(&found)
}

// The words of a root: four noughts if refused.
fn root_row(found: Result<Search, Refusal>) -> [u64; 4]
    ensures { result ≡ search_words found }
{
    match found {
        Ok(Search { root, line }) => [root, line.bit, line.rest, line.root],
        Err(_) => [0; 4],
    }
}

// ---- floats: a report's kind is a record's, 1 or 17 deep, 2 or 18 surface (its pressure is not read), 3 or 19 missing (no float is read). Its probe's number
// stands beside it and is taken with either of its kinds; 0 is no number

// A channel: 0 or its refusal; out gets the grid numbers, the density and the bulk modulus, and the remarks of salinity, temperature and pressure (1
// below its grid point, 2 on it, 3 above it); eight noughts if refused. The probe's number makes no difference.
#[unsafe(no_mangle)]
pub extern "C" fn warpsorrel_channel(
    kind: u32,
    probe: u16,
    salinity: f32,
    temperature: f32,
    pressure: f32,
    out: &mut [i64; 8],
) -> u32
    ensures answer { result ≡ channel_number (channel_of (entry_of kind probe salinity temperature pressure)) }
    ensures numbers { out.new ≡ sets out.old 0 (channel_words (channel_of (entry_of kind probe salinity temperature pressure))) }
{
    let channel = panel::answer(abi::entry_of(kind, probe, salinity, temperature, pressure));
    *out = channel_row(channel);
    refusals::number(&channel)
}

// The words of a channel: eight noughts if refused.
fn channel_row(channel: Channel) -> [i64; 8]
    ensures { result ≡ channel_words channel }
{
    let Ok(Accepted { at, water, remarks }) = channel else {
        return [0; 8];
    };
    [
        at.sigma,
        at.tau,
        at.pi,
        i64::from(water.density),
        i64::from(water.bulk),
        i64::from(remarks.salinity.number()),
        i64::from(remarks.temperature.number()),
        i64::from(remarks.pressure.number()),
    ]
}

// The words of a comparison.
fn put_needle(pair: Comparison, out: &mut [i64; 3]) -> u32
    ensures answer { result ≡ needle_number pair.needle }
    ensures numbers { out.new ≡ sets out.old 0 (comparison_words pair) }
{
    *out = [
        i64::from(waters::density(channels::water(pair.left))),
        i64::from(waters::density(channels::water(pair.right))),
        pair.needle.unwrap_or(0),
    ];
    refusals::number(&pair.needle)
}

// The needle of two reports: 0 or its refusal, 32 if both are accepted and have the same number other than 0; out gets the left density, the right density (0
// where refused), each at its own pressure, and the needle, of both under the greater of the two.
#[unsafe(no_mangle)]
pub extern "C" fn warpsorrel_needle(
    left_kind: u32,
    left_probe: u16,
    left_salinity: f32,
    left_temperature: f32,
    left_pressure: f32,
    right_kind: u32,
    right_probe: u16,
    right_salinity: f32,
    right_temperature: f32,
    right_pressure: f32,
    out: &mut [i64; 3],
) -> u32
    ensures answer { result ≡ needle_number (comparison_of (entry_of left_kind left_probe left_salinity left_temperature left_pressure) (entry_of right_kind right_probe right_salinity right_temperature right_pressure)).needle }
    ensures numbers { out.new ≡ sets out.old 0 (comparison_words (comparison_of (entry_of left_kind left_probe left_salinity left_temperature left_pressure) (entry_of right_kind right_probe right_salinity right_temperature right_pressure))) }
{
    let left = abi::entry_of(
        left_kind,
        left_probe,
        left_salinity,
        left_temperature,
        left_pressure,
    );
    let right = abi::entry_of(
        right_kind,
        right_probe,
        right_salinity,
        right_temperature,
        right_pressure,
    );
    put_needle(panel::paired(left, right), out)
}

// How much carbon dioxide a report's water will hold: 0 or its refusal; out gets ln K0 in millionths, 0 if refused. The pressure is not read, and no number is
// taken: it makes no difference.
#[unsafe(no_mangle)]
pub extern "C" fn warpsorrel_co2(
    kind: u32,
    salinity: f32,
    temperature: f32,
    pressure: f32,
    out: &mut i64,
) -> u32
    ensures answer { result ≡ solubility_number (solubility_of (entry_of kind 0 salinity temperature pressure)) }
    ensures value { out.new ≡ solubility_value (solubility_of (entry_of kind 0 salinity temperature pressure)) }
{
    let answer = carbon::answer(abi::entry_of(kind, 0, salinity, temperature, pressure));
    *out = answer.unwrap_or(0);
    refusals::number(&answer)
}

// The float for the recorder, of a shown density.
#[unsafe(no_mangle)]
pub extern "C" fn warpsorrel_recorder(shown: u32) -> f32
    ensures { result ≡ recorder_of shown }
{
    floats::recorder(shown)
}

// ---- streams of records

// How many pairs a stream has.
#[unsafe(no_mangle)]
pub extern "C" fn warpsorrel_pairs(stream: &[u8]) -> usize
    ensures { result ≡ length (pairs stream.now) }
{
    pairs::count(stream)
}

// The pair of a stream with so many pairs before it: 1, and out gets refusal, density and bulk modulus of the left, those of the right,
// refusal and value of the needle; 0 and eight noughts if the stream has no such pair.
#[unsafe(no_mangle)]
pub extern "C" fn warpsorrel_pair(stream: &[u8], before: usize, out: &mut [i64; 8]) -> u32
    ensures answer { result ≡ found_number (nth_of (pairs stream.now) before) }
    ensures numbers { out.new ≡ sets out.old 0 (found_words (nth_of (pairs stream.now) before)) }
{
    let found = streams::nth(stream, before);
    abi::put_pair(found.map(abi::as_shown), out);
    u32::from(found.is_some())
}

// ---- text

// The line of a pair, at the start of out: 0, and count gets its bytes; or the refusal 30 (out has under 32 bytes) or 31 (the number is 0
// or over 9,999), count gets 0 and out is untouched.
#[unsafe(no_mangle)]
pub extern "C" fn warpsorrel_line(
    number: u32,
    left_kind: u32,
    left_probe: u16,
    left_salinity: f32,
    left_temperature: f32,
    left_pressure: f32,
    right_kind: u32,
    right_probe: u16,
    right_salinity: f32,
    right_temperature: f32,
    right_pressure: f32,
    out: &mut [u8],
    count: &mut usize,
) -> u32
    ensures answer { result ≡ wrote_number (wrote_of (length out.old) number (entry_of left_kind left_probe left_salinity left_temperature left_pressure) (entry_of right_kind right_probe right_salinity right_temperature right_pressure)) }
    ensures count { count.new ≡ wrote_count (wrote_of (length out.old) number (entry_of left_kind left_probe left_salinity left_temperature left_pressure) (entry_of right_kind right_probe right_salinity right_temperature right_pressure)) }
    ensures bytes { out.new ≡ written count.new (line_of number (entry_of left_kind left_probe left_salinity left_temperature left_pressure) (entry_of right_kind right_probe right_salinity right_temperature right_pressure)) out.old }
{
    let left = abi::entry_of(
        left_kind,
        left_probe,
        left_salinity,
        left_temperature,
        left_pressure,
    );
    let right = abi::entry_of(
        right_kind,
        right_probe,
        right_salinity,
        right_temperature,
        right_pressure,
    );
    let wrote = lines::write_line(number, left, right, out);
    *count = wrote.unwrap_or(0);
    refusals::number(&wrote)
}

// The page of a stream, at the start of out: 0, and count gets its bytes; or the refusal 30 (out has under 118,916 bytes), count gets 0 and
// out is untouched.
#[unsafe(no_mangle)]
pub extern "C" fn warpsorrel_page(stream: &[u8], out: &mut [u8], count: &mut usize) -> u32
    ensures answer { result ≡ filled_number (filled_of (length out.old) stream.now) }
    ensures count { count.new ≡ filled_count (filled_of (length out.old) stream.now) }
    ensures bytes { out.new ≡ written count.new (page_of stream.now) out.old }
{
    let filled = pages::write_page(stream, out);
    *count = filled.unwrap_or(0);
    refusals::number(&filled)
}
