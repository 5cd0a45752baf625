// A rule text with what it is taken for: its size and formula, or its fault and a mark under the place.
#![tactic(auto)]

pub mod checks;
pub mod faults;
pub mod reports;
pub mod shown;

pub use checks::check_rules;
pub use reports::report;
pub use shown::show_rule;
