ghost use Rattle.std.specs.Prelude.{◌≡◌, ◌<◌, ◌≤◌, MatchResult};
ghost use Rattle.events.specs.Sheets.{cell_name, sheet_name, sheet_number, sheet_name_at, sheet_text, sheet_example};
ghost use Rattle.std.proofs.Common.{rules};

use crate::cell::Cell;
use crate::kind::{Kind, NoName};
use numbered::Numbered;

#[derive(Clone, Copy, PartialEq, Eq, Debug)]
pub enum SheetEvent {
    Struck(Cell),
    LineEnd,
    SheetEnd,
}

// The names of sheet events, with their numbers.
#[derive(Clone, Copy, PartialEq, Eq, Debug)]
pub enum SheetName {
    Cap = 0,
    Num = 1,
    Dig = 2,
    Sp = 3,
    Oth = 4,
    Eol = 5,
    Eop = 6,
}

impl From<Cell> for SheetName {
    ghost from_gives = { λ c s. s ≡ cell_name c.dots };

    fn from(value: Cell) -> SheetName {
        match value.dots() {
            32 => SheetName::Cap,
            60 => SheetName::Num,
            1 | 3 | 9 | 25 | 17 | 11 | 27 | 19 | 10 | 26 => SheetName::Dig,
            0 => SheetName::Sp,
            _ => SheetName::Oth,
        }
    }
}

impl From<SheetEvent> for SheetName {
    ghost from_gives = { λ e s. s ≡ sheet_name e };

    fn from(value: SheetEvent) -> SheetName {
        match value {
            SheetEvent::Struck(cell) => SheetName::from(cell),
            SheetEvent::LineEnd => SheetName::Eol,
            SheetEvent::SheetEnd => SheetName::Eop,
        }
    }
}

impl TryFrom<u8> for SheetName {
    type Error = NoName;

    ghost try_from_gives = { λ n r. MatchResult r (λ s. (n < 7) × (s ≡ sheet_name_at n)) (λ _. 7 ≤ n) };

    fn try_from(value: u8) -> Result<SheetName, NoName> {
        match value {
            0 => Ok(SheetName::Cap),
            1 => Ok(SheetName::Num),
            2 => Ok(SheetName::Dig),
            3 => Ok(SheetName::Sp),
            4 => Ok(SheetName::Oth),
            5 => Ok(SheetName::Eol),
            6 => Ok(SheetName::Eop),
            _ => Err(NoName),
        }
    }
}

impl Numbered for SheetName {
    ghost number = { sheet_number };

    ghost apart = { Prim.search rules };

    fn number(self) -> u8 {
        self as u8
    }
}

impl Kind for SheetEvent {
    type Name = SheetName;

    const NAMES: u8 = 7;

    ghost NAMES = { 7 };

    ghost number = { λ e. sheet_number (sheet_name e) };

    ghost text = { λ n. sheet_text (sheet_name_at n) };

    ghost example = { λ n. sheet_example (sheet_name_at n) };

    ghost some = { Prim.search rules };

    ghost few = { Prim.search rules };

    ghost below = { Prim.search rules };

    ghost labels = { Prim.search rules };

    ghost apart = { Prim.search rules };

    ghost samples = { Prim.search rules };

    ghost known = { Prim.search rules };

    ghost named = { Prim.search rules };

    ghost names = { Prim.search rules };

    fn text<'a>(name: SheetName) -> &'a str {
        match name {
            SheetName::Cap => "cap",
            SheetName::Num => "num",
            SheetName::Dig => "dig",
            SheetName::Sp => "sp",
            SheetName::Oth => "oth",
            SheetName::Eol => "eol",
            SheetName::Eop => "eop",
        }
    }

    fn example(name: SheetName) -> SheetEvent {
        match name {
            SheetName::Cap => SheetEvent::Struck(Cell::low(32)),
            SheetName::Num => SheetEvent::Struck(Cell::low(60)),
            SheetName::Dig => SheetEvent::Struck(Cell::low(1)),
            SheetName::Sp => SheetEvent::Struck(Cell::low(0)),
            SheetName::Oth => SheetEvent::Struck(Cell::low(2)),
            SheetName::Eol => SheetEvent::LineEnd,
            SheetName::Eop => SheetEvent::SheetEnd,
        }
    }
}
