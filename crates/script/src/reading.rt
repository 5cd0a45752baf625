ghost use Rattle.std.specs.Prelude.{◌≡◌, [], IfOk, IfErr};
ghost use Rattle.script.specs.Scripts.{Begins, Unread};
ghost use Rattle.script.specs.declared.reading.ScriptError.TheVariants.{Memory, Line};

use crate::refusal::TurnRefusal;
use crate::turn::read_turn;
use events::{MachineEvent, SheetEvent};
use lines::Lines;
use session::Turn;
use std::alloc::{AllocFailed, Global};

// A line that is no turn, by its number from 1.
#[derive(Clone, Copy, PartialEq, Eq, Debug)]
pub struct BadLine {
    pub number: usize,
    pub refusal: TurnRefusal,
}

// Why no script is read: memory ran out, or a line is no turn.
#[derive(Clone, Copy, PartialEq, Eq, Debug)]
pub enum ScriptError {
    Memory,
    Line(BadLine),
}

impl<T: Drop> From<AllocFailed<T>> for ScriptError {
    ghost from_gives = { λ _ r. r ≡ Memory };

    fn from(_value: AllocFailed<T>) -> ScriptError {
        ScriptError::Memory
    }
}

impl From<BadLine> for ScriptError {
    ghost from_gives = { λ b r. r ≡ Line b };

    fn from(value: BadLine) -> ScriptError {
        ScriptError::Line(value)
    }
}

// The turns of all lines, or the first line that is no turn.
pub fn read_script(
    heap: Global,
    text: &[u8],
) -> Result<Vec<Turn<SheetEvent, MachineEvent>>, ScriptError>
    ensures turns { IfOk result (λ v. Begins text.now v.items []) }
    ensures unread { IfErr result (Unread text.now) }
{
    let mut turns = Vec::new(heap);
    for line in Lines::new(text) {
        let number = turns.len() + 1;
        let turn = read_turn(line).map_err(|refusal| BadLine { number, refusal })?;
        turns.push(turn)?;
    }
    Ok(turns)
}
