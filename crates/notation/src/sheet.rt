ghost use Rattle.std.specs.Prelude.{[], ◌∷◌, ◌++◌, codes};
ghost use Rattle.notation.specs.Sheets.{sheet_line, SheetRead};
ghost use Rattle.notation.specs.Once.{sheet_once};
ghost use Rattle.std.proofs.Common.{rules};

use crate::digits::digit;
use crate::line::Notation;
use crate::refusal::LineRefusal;
use events::{Cell, SheetEvent};

fn read_cell(tens: u8, ones: u8) -> Result<SheetEvent, LineRefusal>
    ensures { SheetRead (codes "c" ++ (tens ∷ ones ∷ [])) result }
{
    let t = digit(tens, 10).ok_or(LineRefusal::NotAnEvent)?;
    let o = digit(ones, 10).ok_or(LineRefusal::NotAnEvent)?;
    let cell = Cell::new(10 * t + o)?;
    Ok(SheetEvent::Struck(cell))
}

impl Notation for SheetEvent {
    ghost written = { sheet_line };

    ghost means = { SheetRead };

    ghost back = { Prim.search rules };

    ghost only = { Prim.search rules };

    ghost once = { sheet_once };

    fn read(line: &[u8]) -> Result<SheetEvent, LineRefusal> {
        match line {
            b"e" => Ok(SheetEvent::LineEnd),
            b"p" => Ok(SheetEvent::SheetEnd),
            [b'c', tens, ones] => read_cell(*tens, *ones),
            _ => Err(LineRefusal::NotAnEvent),
        }
    }
}
