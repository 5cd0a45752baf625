ghost use Rattle.std.specs.Prelude.{◌≡◌, ◌<◌};

use crate::refusal::EventRefusal;

// A braille cell: bit d - 1 of `dots` is set where dot d is raised.
#[derive(Clone, Copy, PartialEq, Eq, Debug)]
pub struct Cell {
    dots: u8,
    ghost six: { dots < 64 },
}

impl Cell {
    ghost use Rattle.events.specs.Cells.{blank, cell_of, CellMade};

    // The cell of dots; a `TryFrom<u8>` would be a second name for this call.
    pub fn new(dots: u8) -> Result<Cell, EventRefusal>
        ensures { CellMade dots result }
    {
        if dots < 64 {
            Ok(Cell { dots })
        } else {
            Err(EventRefusal::CellOver63)
        }
    }

    pub fn blank() -> Cell
        ensures { result ≡ blank }
    {
        Cell::low(0)
    }

    pub fn dots(self) -> u8
        ensures { result ≡ self.dots }
    {
        self.dots
    }

    // The cell of the low six bits.
    #[tactic(auto, using(crate::proofs::Same::same))]
    pub(crate) fn low(bits: u32) -> Cell
        ensures { result ≡ cell_of bits }
    {
        Cell {
            dots: (bits % 64) as u8,
        }
    }
}
