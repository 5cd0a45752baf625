// A rule text becomes a rule record, or a refusal with its place.
#![tactic(auto)]

mod lexer;
mod limits;
mod reading;
mod refusal;
mod rule;
mod sentence;
mod words;

pub use numbered::Numbered;
pub use refusal::{Fault, RuleRefusal};
pub use rule::{Rule, Size};
