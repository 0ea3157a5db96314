// A channel from what stands in it, and the needle from two of them and their probes' numbers.
#![tactic(auto)]

ghost use Rattle.std.specs.Prelude.{◌≡◌};
ghost use Rattle.panel.specs.Panel.{entered, channel_of, probe_of, shared_of, comparison_of};
ghost use Rattle.panel.specs.Pairing.{pressure_of, common_of, beside_of, channel_beside, needle_between};

use channels::{Accepted, Channel, Comparison, Needle, Stop};
use readings::{Checked, Entry};
use refusals::Refusal;

// An accepted reading, and the density of its water under the pressure that it has in common with another one: what the needle is made of.
#[derive(Clone, Copy)]
pub struct Side {
    pub accepted: Accepted,
    pub under: u32,
}

// What becomes of what stands in a channel: its grid numbers and remarks, or its refusal.
pub fn entered(entry: Entry) -> Checked
    ensures { result ≡ entered entry }
{
    let message = entry?;
    readings::check(message.report)
}

// The number of a reading's probe; 0 where there is no reading, as `probe_of` has it.
fn probe(entry: Entry) -> u16
    ensures { result ≡ probe_of entry }
{
    entry.map_or(0, |message| message.probe)
}

// Whether one probe stands on both sides. Number 0 is nobody's.
pub fn shares(left: Entry, right: Entry) -> bool
    ensures { result ≡ shared_of left right }
{
    let l = probe(left);
    let r = probe(right);
    l != 0 && l == r
}

// Its pressure; a refused one has none, and does not count: 0, as `pressure_of` has it, is never the greater.
fn pressure(c: Checked) -> i64
    ensures { result ≡ pressure_of c }
{
    c.map_or(0, |taken| taken.at.pi)
}

// The pressure that two have in common: the greater.
fn common(a: Checked, b: Checked) -> i64
    ensures { result ≡ common_of a b }
{
    pressure(b).max(pressure(a))
}

// One side of a pair, beside the other, of which the pressure alone is looked at.
pub fn beside(one: Checked, other: Checked) -> Result<Side, Refusal>
    ensures { result ≡ beside_of one other }
{
    let taken = one?;
    let at = taken.at;
    let found = sea::sounding_at(at.sigma, at.tau, at.pi, common(one, other))?;
    let accepted = Accepted {
        at,
        water: found.water,
        remarks: taken.remarks,
    };
    Ok(Side {
        accepted,
        under: found.under,
    })
}

// A side's channel.
pub fn channel(side: Result<Side, Refusal>) -> Channel
    ensures { result ≡ channel_beside side }
{
    side.map(|it| it.accepted)
}

// The needle of two sides.
pub fn needle(left: Result<Side, Refusal>, right: Result<Side, Refusal>, shared: bool) -> Needle
    ensures { result ≡ needle_between left right shared }
{
    let l = left.map_err(Stop::Left)?;
    let r = right.map_err(Stop::Right)?;
    if shared {
        return Err(Stop::SameProbe);
    }
    Ok(i64::from(r.under) - i64::from(l.under))
}

// The answer of one channel.
pub fn answer(entry: Entry) -> Channel
    ensures { result ≡ channel_of entry }
{
    let c = entered(entry);
    channel(beside(c, c))
}

// Both channels, each from what stands in it alone, and their needle. In line, since the code of a needle is slower where the comparison is handed over.
#[inline(always)]
pub fn paired(left: Entry, right: Entry) -> Comparison
    ensures { result ≡ comparison_of left right }
{
    let shared = shares(left, right);
    let l = entered(left);
    let r = entered(right);
    let a = beside(l, r);
    let b = beside(r, l);
    Comparison {
        left: channel(a),
        right: channel(b),
        needle: needle(a, b, shared),
    }
}
