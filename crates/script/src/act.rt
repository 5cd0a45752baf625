ghost use Rattle.script.specs.Acts.{ActRead};

use crate::refusal::TurnRefusal;
use lines::read_number;
use notation::Notation;
use session::Act;

// What is done at a bench that takes events of the kind E.
pub(crate) fn read_act<E: Notation>(act: &[u8]) -> Result<Act<E>, TurnRefusal>
    ensures { ActRead E.Notation.written E.Notation.means act.now result }
{
    if let Some(event) = act.strip_prefix(b"take ") {
        return Ok(Act::Take(E::read(event)?));
    }
    if let Some(digits) = act.strip_prefix(b"close ") {
        let place = read_number(digits).ok_or(TurnRefusal::NotATurn)?;
        return Ok(Act::Close(place as usize));
    }
    match act {
        b"open" => Ok(Act::Open),
        b"ask" => Ok(Act::Ask),
        _ => Err(TurnRefusal::NotATurn),
    }
}
