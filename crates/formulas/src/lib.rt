// The words of a rule, the nodes of its formula, and the formula itself as contracts speak of it.
#![tactic(auto)]

pub mod binary;
pub mod node;
pub mod operator;
pub mod unary;
pub mod word;

pub use binary::Binary;
pub use node::Node;
pub use operator::Operator;
pub use unary::Unary;
pub use word::Word;
