#![tactic(auto)]

// Why a call is turned back, each with its number; `number` of specs/Refusals gives the numbers too.
#[derive(Clone, Copy, PartialEq, Eq)]
pub enum Reason {
    TooLong = 1,
    NotALine = 2,
    AboveLimit = 3,
    OutOfCount = 4,
    NotRising = 5,
    WrongPointer = 6,
    BoundTwice = 7,
    OutOfScope = 8,
    NotAllowed = 9,
    FlowRuleFails = 10,
    ClaimFails = 11,
    StoreTooShort = 20,
    StoreEmpty = 21,
    StoreUnsound = 22,
    OutputTooShort = 23,
    NotAChannel = 24,
    MoveNotAllowed = 30,
    LimitExceeded = 31,
    NotBound = 32,
    SetNotAllowed = 33,
}

// A refusal: why, and at which line; lines count from 1, and 0 is no line.
#[derive(Clone, Copy, PartialEq, Eq)]
pub struct Refusal {
    pub reason: Reason,
    pub line: usize,
}

impl Reason {
    ghost use Rattle.std.specs.Prelude.{◌≡◌};
    ghost use Rattle.format.specs.Refusals.{refusal};
    ghost use Rattle.format.specs.Structure.{row_line};

    pub fn at(self, line: usize) -> Refusal
        ensures { result ≡ refusal self line }
    {
        Refusal { reason: self, line }
    }

    // At the line of row r.
    pub fn at_row(self, r: u8) -> Refusal
        ensures { result ≡ refusal self (row_line r) }
    {
        self.at(2 + r as usize)
    }
}

impl From<Reason> for u8 {
    ghost use Rattle.std.specs.Prelude.{◌≡◌};
    ghost use Rattle.format.specs.Refusals.{number};

    ghost from_gives = { λ r n. n ≡ number r };

    #[tactic(auto, unfolding(crate::specs::Refusals::number))]
    fn from(reason: Reason) -> u8 {
        reason as u8
    }
}

// The lines after the first stand in sections, in this order.
#[derive(Clone, Copy, PartialEq, Eq)]
pub enum Section {
    Rows,
    Flows,
    Comms,
    Claims,
}
