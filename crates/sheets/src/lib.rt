// What watches sheets: the line ruler, and the ports that turn events into sheet events.
#![tactic(auto)]

pub mod measure;
pub mod ports;
pub mod ruler;

pub use measure::RulerRefusal;
pub use numbered::Numbered;
pub use ports::{Flow, FlowPort, Hammer, HammerPort};
pub use ruler::Ruler;
