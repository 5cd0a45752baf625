// The events of an embosser, in kinds: what struck and fed a sheet, and what the machine did.
#![tactic(auto)]

pub mod cell;
pub mod kind;
pub mod machine;
pub mod refusal;
pub mod sheet;
pub mod word;

pub use cell::Cell;
pub use kind::{Kind, NoName};
pub use machine::{Action, MachineName};
pub use numbered::Numbered;
pub use refusal::EventRefusal;
pub use sheet::{SheetEvent, SheetName};
pub use word::MachineEvent;
