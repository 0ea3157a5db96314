// Why something is refused.
#![tactic(auto)]

ghost use Rattle.std.specs.Prelude.{◌≡◌, ℕ};
ghost use Rattle.refusals.specs.Number.{number_of, refusal_of, number_by};

// One case for each number of SPEC's list.
#[derive(Clone, Copy)]
pub enum Refusal {
    Missing = 1,
    NotFinite = 2,
    Salinity = 3,
    Temperature = 4,
    Pressure = 5,
    Cut = 6,
    Kind = 7,
    Length = 8,
    Room = 30,
    PairNumber = 31,
    SameProbe = 32,
}

impl Refusal {
    pub fn number(self) -> u32
        ensures { result ≡ number_of self }
    {
        self as u32
    }
}

// Why there is no answer: a refusal, or what else has a number of SPEC's.
pub trait Reason: Copy {
    ghost numbered: { Self → ℕ };

    fn number(self) -> u32
        ensures { result ≡ numbered self };
}

// (By its own function, which stands as it was promised: who has a refusal asks for its number without the trait.)
impl Reason for Refusal {
    ghost numbered = { number_of };

    fn number(self) -> u32 {
        Refusal::number(self)
    }
}

// Why a record gave no reading: the three refusals that stand in a channel before any reading does.
#[derive(Clone, Copy)]
pub enum Unread {
    Cut,
    Kind,
    Length,
}

impl From<Unread> for Refusal {
    ghost from_gives = { λ why refusal. refusal ≡ refusal_of why };

    fn from(why: Unread) -> Refusal {
        match why {
            Unread::Cut => Refusal::Cut,
            Unread::Kind => Refusal::Kind,
            Unread::Length => Refusal::Length,
        }
    }
}

// The number of an answer: that of why there is none, or 0.
pub fn number<T, E: Reason>(answer: &Result<T, E>) -> u32
    ensures { result ≡ number_by E.numbered answer.now }
{
    match answer {
        Ok(_) => 0,
        Err(why) => why.number(),
    }
}
