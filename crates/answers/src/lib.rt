// What the calls on a bench answer.
#![tactic(auto)]

ghost use Rattle.answers.specs.Numbers.{refusal_number};
ghost use Rattle.std.proofs.Common.{rules};

mod words;

pub use numbered::Numbered;

// Why a call on a bench is refused, with the number that a refusal is known by.
#[derive(Clone, Copy, PartialEq, Eq, Debug)]
pub enum Refusal {
    RunsSpent = 31,
    NoRunOpen = 32,
    RunFull = 33,
    SlipNotOfRun = 34,
}

impl Numbered for Refusal {
    ghost number = { refusal_number };

    ghost apart = { Prim.search rules };

    fn number(self) -> u8 {
        self as u8
    }
}

// What ask and close tell: whether the run is kept, and how many events it has.
#[derive(Clone, Copy, PartialEq, Eq, Debug)]
pub struct Report {
    pub mark: bool,
    pub count: u32,
}

// What a look tells: lost or safe, with the number of events after which it first was so, or open.
#[derive(Clone, Copy, PartialEq, Eq, Debug)]
pub enum Sight {
    Open,
    Lost(u32),
    Safe(u32),
}

// What a call on a bench is answered: an opened run by the bench's number and the run's.
#[derive(Clone, Copy, PartialEq, Eq, Debug)]
pub enum Reply {
    Opened(u16, u16),
    Taken,
    Told(Report),
    Looked(Sight),
    Closed(Report),
    Refused(Refusal),
}
