// Bytes put one after another, where want of memory is remembered and told at the end.
#![tactic(auto)]

pub mod putting;
pub mod writer;

pub use writer::Writer;
