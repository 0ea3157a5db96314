// Whole-number arithmetic: the scaled product, a row's value, the root. The inside of the engine: what each
// function asks for keeps its words from overflowing, and the calls above it see to it.
#![tactic(auto)]

ghost use Rattle.std.specs.Prelude.{◌≡◌, ℕ, ◌+◌, ◌*◌, ◌<◌, ◌≤◌, ◌^◌, drop};
ghost use lib.IntN.{pos, ◌+ℤ◌, nat_abs};
ghost use Rattle.whole.specs.Arith as the;
ghost use Rattle.whole.specs.Order.{Lies};
ghost use Rattle.whole.specs.Paper as paper;

// The scaled product of h by x. The offset makes the dividend positive, so that one unsigned division rounds
// towards minus infinity with no test of a sign.
// (By what is asked the casts lose nothing, here and in `unsigned` and `signed`; `try_from` would answer an error that cannot come.)
pub fn scaled(h: i64, x: i64) -> i64
    requires { nat_abs h * nat_abs x ≤ 4_600_000_000_000_000_000 }
    ensures { result ≡ the.scaled h x }
{
    let p = h * x + 4600000000000000000;
    let q = p as u64 / 100000;
    q as i64 - 46000000000000
}

// c plus the scaled product of h by x.
pub fn step(c: i64, h: i64, x: i64) -> i64
    requires c_small { nat_abs c ≤ 46_000_000_000_000 }
    requires h_small { nat_abs h ≤ 46_000_000_000_000 }
    requires x_small { nat_abs x ≤ 100_000 }
    ensures { result ≡ c +ℤ the.scaled h x }
{
    c + scaled(h, x)
}

// The value at t of a row of six coefficients, lowest power first, a shorter row with noughts past its end.
pub fn row_value(row: [i64; 6], t: i64) -> i64
    requires t_small { nat_abs t ≤ 100_000 }
    requires partial_small { ((k : ℕ) → nat_abs (the.row_value (drop k row) t) ≤ 46_000_000_000_000) }
    ensures { result ≡ the.row_value row t }
{
    let mut h = 0;
    for c in row.iter().rev() {
        h = c + scaled(h, t);
    }
    h
}

// A line of the search for a root, as it is worked out on paper (docs/ROOT.md): the root so far, the rest, the trial bit. (In this order the compiler
// chooses the new root first, for which the next trial waits; with the bit first a needle took a hundredth longer.) What is asked of n below is asked of a plain number, and not by a type:
// these functions are promised to whoever has one (docs/PROMISES.md), and so is `root_at`.
#[derive(Clone, Copy)]
pub struct Trial {
    pub root: u64,
    pub rest: u64,
    pub bit: u64,
}

impl Trial {
    // The first line of n: its leading bit fixes the first trial bit.
    pub fn first(n: u64) -> Trial
        requires { n < 2 ^ 62 }
        ensures { result ≡ paper.begun n }
    {
        let pairs = (65 - u64::leading_zeros(n)) >> 1;
        let bit: u64 = (1 << (pairs << 1)) >> 2;
        Trial {
            bit,
            rest: n,
            root: 0,
        }
    }

    // The line after a trial.
    pub fn tried(self) -> Trial
        requires { self.root + self.bit < 2 ^ 64 }
        ensures { result ≡ paper.tried self }
    {
        let sum = self.root + self.bit;
        let half = self.root >> 1;
        let bit = self.bit >> 2;
        if self.rest < sum {
            Trial {
                bit,
                rest: self.rest,
                root: half,
            }
        } else {
            Trial {
                bit,
                rest: self.rest - sum,
                root: half + self.bit,
            }
        }
    }
}

// The line of n after so many trials; past the last one nothing changes.
pub fn trial_after(n: u64, trials: u32) -> Trial
    requires { n < 2 ^ 62 }
    ensures { result ≡ paper.after trials n }
{
    let mut at = Trial::first(n);
    for _ in 0..trials {
        if at.bit == 0 {
            return at;
        }
        at = at.tried();
    }
    at
}

// The root on paper: a trial after the other until no trial bit is left.
pub fn searched(n: u64) -> u64
    requires { n < 2 ^ 62 }
    ensures { result ≡ paper.rooted n }
{
    let mut at = Trial::first(n);
    while 0 < at.bit {
        at = at.tried();
    }
    at.root
}

// The greatest whole number whose square is at most n.
pub fn root(n: u64) -> u64
    requires { n < 2 ^ 62 }
    ensures { result ≡ the.root_of n }
{
    searched(n)
}

// A number that is not negative, as an unsigned word.
pub fn unsigned(z: i64) -> u64
    requires { the.minus z ≡ 0 }
    ensures { result ≡ the.plus z }
{
    z as u64
}

// A small number as a signed word.
pub fn signed(n: u64) -> i64
    requires { n < 2 ^ 63 }
    ensures { result ≡ lib.IntN.pos n }
{
    n as i64
}

// The root of a salinity's grid number.
pub fn root_at(sigma: i64) -> i64
    requires { Lies (pos 0) (pos 42_000) sigma }
    ensures { result ≡ pos (the.root_at (the.plus sigma)) }
{
    let w = root(unsigned(sigma) * 100000);
    signed(w)
}
