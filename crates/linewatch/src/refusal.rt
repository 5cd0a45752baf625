ghost use Rattle.std.specs.Prelude.{◌≡◌, Some};
ghost use Rattle.linewatch.specs.Refusals.{take_number, take_words};
ghost use Rattle.linewatch.specs.declared.refusal.TakeRefusal.TheVariants as take;
ghost use Rattle.std.proofs.Common.{rules};

use bench::Refusal;
use notation::LineRefusal;
use numbered::Numbered;
use std::fmt;

// Why no event was taken.
#[derive(Clone, Copy, PartialEq, Eq, Debug)]
pub enum TakeRefusal {
    Line(LineRefusal),
    Bench(Refusal),
}

impl Numbered for TakeRefusal {
    ghost number = { take_number };

    ghost apart = { Prim.search rules };

    fn number(self) -> u8 {
        match self {
            TakeRefusal::Line(refusal) => refusal.number(),
            TakeRefusal::Bench(refusal) => refusal.number(),
        }
    }
}

impl fmt::Display for TakeRefusal {
    ghost output = { λ x. Some (take_words x) };

    fn fmt<W: fmt::Write>(&self, f: &mut fmt::Formatter<W>) -> fmt::Result {
        match self {
            TakeRefusal::Line(refusal) => write!(f, "{refusal}"),
            TakeRefusal::Bench(_) => write!(f, "the run takes no more events"),
        }
    }
}

impl From<LineRefusal> for TakeRefusal {
    ghost from_gives = { λ x r. r ≡ take.Line x };

    fn from(value: LineRefusal) -> TakeRefusal {
        TakeRefusal::Line(value)
    }
}

impl From<Refusal> for TakeRefusal {
    ghost from_gives = { λ x r. r ≡ take.Bench x };

    fn from(value: Refusal) -> TakeRefusal {
        TakeRefusal::Bench(value)
    }
}
