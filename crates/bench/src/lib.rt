// The bench: runs are opened, events taken, marks told and runs closed, over any observer.
#![tactic(auto)]

pub mod calls;
pub mod looking;
pub mod plain;
mod run;
pub mod slip;

pub use answers::{Numbered, Refusal, Reply, Report, Sight};
pub use calls::Calls;
pub use looking::LookBench;
pub use plain::Bench;
pub use slip::{Slip, write_off, write_off_all};
