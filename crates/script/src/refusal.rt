ghost use Rattle.std.specs.Prelude.{◌≡◌};
ghost use Rattle.script.specs.Refusals.{take_refusal};

use events::EventRefusal;
use notation::LineRefusal;

// Why no turn is read from a line: it is none, or it is a take of an event that is refused.
#[derive(Clone, Copy, PartialEq, Eq, Debug)]
pub enum TurnRefusal {
    NotATurn,
    Event(EventRefusal),
}

impl From<LineRefusal> for TurnRefusal {
    ghost from_gives = { λ e r. r ≡ take_refusal e };

    fn from(value: LineRefusal) -> TurnRefusal {
        match value {
            LineRefusal::CellOver63 => TurnRefusal::Event(EventRefusal::CellOver63),
            LineRefusal::KindUnknown => TurnRefusal::Event(EventRefusal::KindUnknown),
            LineRefusal::BitNotZero => TurnRefusal::Event(EventRefusal::BitNotZero),
            LineRefusal::NotAnEvent => TurnRefusal::NotATurn,
        }
    }
}
