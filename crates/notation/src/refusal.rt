ghost use Rattle.std.specs.Prelude.{◌≡◌, Some};
ghost use Rattle.notation.specs.Refusals.{line_number, line_refusal_words, carried};
ghost use Rattle.std.proofs.Common.{rules};

use events::EventRefusal;
use numbered::Numbered;
use std::fmt;

// Why no event is read from a line. The cases of an event's refusal stand here again, since a refusal's number is shown in the definition of its
// enum, and a case that holds another refusal can't show one.
#[derive(Clone, Copy, PartialEq, Eq, Debug)]
pub enum LineRefusal {
    CellOver63 = 21,
    KindUnknown = 22,
    BitNotZero = 23,
    NotAnEvent = 61,
}

impl Numbered for LineRefusal {
    ghost number = { line_number };

    ghost apart = { Prim.search rules };

    fn number(self) -> u8 {
        self as u8
    }
}

impl fmt::Display for LineRefusal {
    ghost output = { λ e. Some (line_refusal_words e) };

    fn fmt<W: fmt::Write>(&self, f: &mut fmt::Formatter<W>) -> fmt::Result {
        f.write_str(match self {
            LineRefusal::CellOver63 => "no cell is over 63",
            LineRefusal::KindUnknown => "no such kind",
            LineRefusal::BitNotZero => "a bit is not zero",
            LineRefusal::NotAnEvent => "this is no event",
        })
    }
}

impl From<EventRefusal> for LineRefusal {
    ghost from_gives = { λ e r. r ≡ carried e };

    fn from(value: EventRefusal) -> LineRefusal {
        match value {
            EventRefusal::CellOver63 => LineRefusal::CellOver63,
            EventRefusal::KindUnknown => LineRefusal::KindUnknown,
            EventRefusal::BitNotZero => LineRefusal::BitNotZero,
        }
    }
}
