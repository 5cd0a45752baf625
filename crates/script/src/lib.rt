// A script of turns: how a turn is written on a line, and what a reply is in words.
#![tactic(auto)]

mod act;
pub mod reading;
pub mod refusal;
mod seat;
pub mod turn;
pub mod words;

pub use lines::{cut_line, read_number};
pub use reading::{BadLine, ScriptError, read_script};
pub use refusal::TurnRefusal;
pub use turn::read_turn;
pub use words::{refusal_words, reply_words};
