// What the C ABI's numbers stand for: a reading from its kind, number and floats, and an answer as a row of words.
#![tactic(auto)]

ghost use Rattle.std.specs.Prelude.{◌≡◌};
ghost use Rattle.std.proofs.lemmas.List.Edits.{sets};
ghost use Rattle.abi.specs.Abi.{unread_of, entry_of, shown_of, shown_words};

use channels::{Channel, Comparison, Stop};
use readings::{Entry, Message};
use refusals::{Reason, Unread};

// Why there is no reading, by a kind that the table does not have. No record has 65,536 plus 6 or 8 for a kind: they stand for one that was refused by 6 or 8.
// Any other kind is refused by 7, as a record's is.
fn unread(kind: u32) -> Unread
    ensures { result ≡ unread_of kind }
{
    match kind {
        65542 => Unread::Cut,
        65544 => Unread::Length,
        _ => Unread::Kind,
    }
}

// What a kind, a probe's number and three floats, as a C call has them, stand for. The number is taken with either of a report's two kinds. (`usize`
// has no `From<u32>`. The kind's check is taken apart by `let .. else`, as SPEC wants it.)
#[tactic(auto, unfolding(crate::specs::Abi::entry_of))]
pub fn entry_of(kind: u32, probe: u16, salinity: f32, temperature: f32, pressure: f32) -> Entry
    ensures { result ≡ entry_of kind probe salinity temperature pressure }
{
    let Some(row) = kinds::kind_of(kind as usize) else {
        return Err(unread(kind));
    };
    Ok(Message {
        probe,
        report: row.holds.report(salinity, temperature, pressure),
    })
}

// A pair as a call shows it: its needle may be stopped by whatever has a number, as docs/PROMISES.md has it of `put_pair`. (A `Stop` has few of them.)
#[derive(Clone, Copy)]
pub struct ShownPair<E> {
    pub left: Channel,
    pub right: Channel,
    pub needle: Result<i64, E>,
}

// So a comparison is shown.
pub fn as_shown(pair: Comparison) -> ShownPair<Stop>
    ensures { result ≡ shown_of pair }
{
    ShownPair {
        left: pair.left,
        right: pair.right,
        needle: pair.needle,
    }
}

// Refusal, density and bulk modulus of both sides, refusal and value of the needle; noughts where there is no pair.
pub fn put_pair<E: Reason>(found: Option<ShownPair<E>>, out: &mut [i64; 8])
    ensures { out.new ≡ sets out.old 0 (shown_words E.numbered found) }
{
    *out = match found {
        Some(pair) => [
            i64::from(refusals::number(&pair.left)),
            i64::from(waters::density(channels::water(pair.left))),
            i64::from(waters::bulk(channels::water(pair.left))),
            i64::from(refusals::number(&pair.right)),
            i64::from(waters::density(channels::water(pair.right))),
            i64::from(waters::bulk(channels::water(pair.right))),
            i64::from(refusals::number(&pair.needle)),
            pair.needle.unwrap_or(0),
        ],
        None => [0; 8],
    };
}
