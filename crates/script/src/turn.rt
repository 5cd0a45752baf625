ghost use Rattle.script.specs.Acts.{Exactly};
ghost use Rattle.script.specs.Turns.{TurnRead};

use crate::act::read_act;
use crate::refusal::TurnRefusal;
use crate::seat::{Seat, read_seat};
use events::{MachineEvent, SheetEvent};
use session::Turn;

// The turn that is written on a line.
pub fn read_turn(line: &[u8]) -> Result<Turn<SheetEvent, MachineEvent>, TurnRefusal>
    ensures { Exactly (TurnRead line.now) result }
{
    if line == b"ruler look".as_slice() {
        return Ok(Turn::Look);
    }
    let (seat, act) = read_seat(line).ok_or(TurnRefusal::NotATurn)?;
    match seat {
        Seat::Ruler => read_act(act).map(Turn::Watch),
        Seat::Hammer => read_act(act).map(Turn::Plain),
        Seat::First => read_act(act).map(Turn::First),
        Seat::Second => read_act(act).map(Turn::Second),
    }
}
