// How one event is written on a line of input, and the line that names the kind of events.
#![tactic(auto)]

mod digits;
pub mod letter;
pub mod line;
pub mod machine;
pub mod refusal;
pub mod sheet;

pub use letter::{KindLetter, KindRefusal, read_kind};
pub use line::Notation;
pub use numbered::Numbered;
pub use refusal::LineRefusal;
