ghost use Rattle.notation.specs.Letters.{LetterTold, LetterRead, kind_refusal_number};
ghost use Rattle.std.proofs.Common.{rules};

use numbered::Numbered;

// The kinds of events that a first line names, with their letters.
#[derive(Clone, Copy, PartialEq, Eq, Debug)]
pub enum KindLetter {
    Sheet = 's' as isize,
    Machine = 'm' as isize,
}

// Why a first line names no kind.
#[derive(Clone, Copy, PartialEq, Eq, Debug)]
pub enum KindRefusal {
    NoKind = 60,
}

impl Numbered for KindRefusal {
    ghost number = { kind_refusal_number };

    ghost apart = { Prim.search rules };

    fn number(self) -> u8 {
        self as u8
    }
}

impl TryFrom<u8> for KindLetter {
    type Error = KindRefusal;

    ghost try_from_gives = { LetterTold };

    fn try_from(value: u8) -> Result<KindLetter, KindRefusal> {
        match value {
            b's' => Ok(KindLetter::Sheet),
            b'm' => Ok(KindLetter::Machine),
            _ => Err(KindRefusal::NoKind),
        }
    }
}

// The kind whose letter the line is.
pub fn read_kind(line: &[u8]) -> Result<KindLetter, KindRefusal>
    ensures { LetterRead line.now result }
{
    match line {
        [letter] => KindLetter::try_from(*letter),
        _ => Err(KindRefusal::NoKind),
    }
}
