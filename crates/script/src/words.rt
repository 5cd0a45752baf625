ghost use Rattle.std.specs.Prelude.{◌≡◌, IfOk, Some, string_bytes};
ghost use Rattle.script.specs.Replies.{reply_words, no_turn_words};

use crate::reading::BadLine;
use crate::refusal::TurnRefusal;
use bench::Reply;
use numbered::Numbered;
use std::alloc::{AllocError, Global};
use std::fmt;

// A reply in words; no reply is that of a close at a place that holds no slip.
pub fn reply_words(heap: Global, reply: Option<Reply>) -> Result<String, AllocError>
    ensures { IfOk result (λ s. string_bytes s ≡ reply_words reply) }
{
    match reply {
        // The usual reply, which is copied: to format it takes longer.
        Some(Reply::Taken) => String::from_str(heap, "taken"),
        Some(reply) => format!(in heap; "{reply}"),
        None => String::from_str(heap, "no slip at that place"),
    }
}

impl fmt::Display for BadLine {
    ghost output = { λ b. Some (no_turn_words b.number b.refusal) };

    fn fmt<W: fmt::Write>(&self, f: &mut fmt::Formatter<W>) -> fmt::Result {
        let line = self.number;
        match self.refusal {
            TurnRefusal::NotATurn => write!(f, "line {line} is no turn"),
            TurnRefusal::Event(event) => {
                write!(f, "line {line} is no turn: refused {}", event.number())
            }
        }
    }
}

// Why the line with this number is no turn.
pub fn refusal_words(heap: Global, line: usize, refusal: TurnRefusal) -> Result<String, AllocError>
    ensures { IfOk result (λ s. string_bytes s ≡ no_turn_words line refusal) }
{
    let bad = BadLine {
        number: line,
        refusal,
    };
    format!(in heap; "{bad}")
}
