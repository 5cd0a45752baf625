ghost use Rattle.std.specs.Prelude.{◌≡◌};
ghost use Rattle.rules.specs.Refusals.{refusal_number};
ghost use Rattle.std.proofs.Common.{rules};

use numbered::Numbered;

// Why a rule text is not read.
#[derive(Clone, Copy, PartialEq, Eq, Debug)]
pub enum RuleRefusal {
    TooLong = 10,
    ForeignByte = 11,
    LongName = 12,
    UnknownName = 13,
    NoRule = 14,
    TooManyNodes = 15,
    TooManyTemporal = 16,
}

impl Numbered for RuleRefusal {
    ghost number = { refusal_number };

    ghost apart = { Prim.search rules };

    fn number(self) -> u8 {
        self as u8
    }
}

// A refusal with its place in the text.
#[derive(Clone, Copy, PartialEq, Eq, Debug)]
pub struct Fault {
    pub refusal: RuleRefusal,
    pub place: usize,
}
