ghost use Rattle.events.specs.Refusals.{refusal_number};
ghost use Rattle.std.proofs.Common.{rules};

use numbered::Numbered;

// Why no event is made.
#[derive(Clone, Copy, PartialEq, Eq, Debug)]
pub enum EventRefusal {
    CellOver63 = 21,
    KindUnknown = 22,
    BitNotZero = 23,
}

impl Numbered for EventRefusal {
    ghost number = { refusal_number };

    ghost apart = { Prim.search rules };

    fn number(self) -> u8 {
        self as u8
    }
}
