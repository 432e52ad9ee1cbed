//! Why a call is refused: the refusals, their numbers, and the argument that is to blame.
#![tactic(auto)]

ghost use Rattle.std.specs.Prelude.{◌≡◌};
ghost use Rattle.refusal.specs.Numbers.{number};

/// The conditions by which a call is refused, in the order in which they are tried.
#[derive(Clone, Copy, PartialEq, Eq, Debug)]
pub enum Refusal {
    BadTable = 1,
    NoSuch = 2,
    Dying = 3,
    NotYours = 4,
    NoClass = 5,
    WrongClass = 6,
    FixedClass = 7,
    NotWeak = 8,
    NoPlace = 9,
    BrokenClass = 10,
    Marked = 11,
    CountFull = 12,
    NoRoom = 13,
    BirthsSpent = 14,
    NotNewest = 15,
    ListShort = 16,
}

impl Refusal {
    /// The number that a reply shows.
    pub fn number(self) -> u32
        ensures { result ≡ number self }
    {
        self as u32
    }
}

/// A refusal and the ordinal of the argument that is to blame, counted from 1; 0 where none is.
#[derive(Clone, Copy, PartialEq, Eq, Debug)]
pub struct Fault {
    pub refusal: Refusal,
    // No `Option`: the rules' own number, which a reply shows as it is.
    pub argument: u32,
}
