// The root of a salinity, and the line of its search after so many trials, as the service shop works it out on paper (docs/ROOT.md).
#![tactic(auto)]

ghost use Rattle.std.specs.Prelude.{◌≡◌};
ghost use Rattle.roots.specs.Search.{search_of};

use refusals::Refusal;
use whole::Trial;

// The root, and the line of the paper.
#[derive(Clone, Copy)]
pub struct Search {
    pub root: u64,
    pub line: Trial,
}

// The root of the grid number sigma (salinity in 0.001) as a reading uses it, and the line of its search after so many trials. (The check is taken apart by
// `let .. else`, as SPEC wants it.)
pub fn search_at(sigma: i64, trials: u32) -> Result<Search, Refusal>
    ensures { result ≡ search_of sigma trials }
{
    let true = sea::within(sigma, 0, 42000) else {
        return Err(Refusal::Salinity);
    };
    let n = whole::unsigned(sigma) * 100000;
    let root = whole::root(n);
    let line = whole::trial_after(n, trials);
    Ok(Search { root, line })
}
