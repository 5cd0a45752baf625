// Observers and the layers over them: what an observer means, its complement, both of two, and ports.
#![tactic(auto)]

pub mod both;
pub mod complement;
pub mod observer;
pub mod port;

pub use both::Both;
pub use complement::Complement;
pub use observer::{FarSighted, Observer, Outlook};
pub use port::{Port, Turning};
