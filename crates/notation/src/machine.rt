ghost use Rattle.notation.specs.Machines.{word_line, WordTold, MachineRead};
ghost use Rattle.notation.specs.Once.{machine_once};
ghost use Rattle.std.proofs.Common.{rules};

use crate::digits::digit;
use crate::line::Notation;
use crate::refusal::LineRefusal;
use events::MachineEvent;

// The word of eight small hexadecimal digits; `lines::read_number` takes other lengths, and the library's numerals of base 16, by which one
// function would serve both, take capitals too.
fn read_word(line: &[u8]) -> Option<u32>
    ensures { WordTold line.now result }
{
    if line.len() != 8 {
        return None;
    }
    let mut word: u32 = 0;
    for byte in line {
        let value = digit(*byte, 16)?;
        word = word * 16 + u32::from(value);
    }
    Some(word)
}

impl Notation for MachineEvent {
    ghost written = { λ m. word_line m.word };

    ghost means = { MachineRead };

    ghost back = { Prim.search rules };

    ghost only = { Prim.search rules };

    ghost once = { machine_once };

    fn read(line: &[u8]) -> Result<MachineEvent, LineRefusal> {
        let word = read_word(line).ok_or(LineRefusal::NotAnEvent)?;
        Ok(MachineEvent::new(word)?)
    }
}
