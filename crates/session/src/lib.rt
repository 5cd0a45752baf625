// A session: turns at four new benches, with one pool of slips, and the law of the bench over all of it.
#![tactic(auto)]

mod desk;
mod perform;
pub mod script;
pub mod turn;

pub use script::{Numbers, replay};
pub use turn::{Act, Turn};
