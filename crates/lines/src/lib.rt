// The lines of a text, and the number that digits write.
#![tactic(auto)]

pub mod line;
pub mod number;
pub mod walk;

pub use line::cut_line;
pub use number::read_number;
pub use walk::Lines;
