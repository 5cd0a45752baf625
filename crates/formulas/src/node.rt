ghost use Rattle.std.specs.Prelude.{◌≡◌, false};
ghost use Rattle.formulas.specs.declared.node.Node.TheVariants.{Constant};

use crate::binary::Binary;
use crate::unary::Unary;

// A node of a formula; a name is its number, as in a word, and operands are the indices of other nodes, since a rule is kept in fixed memory, with no heap.
// `before` is how many temporal operators stand before the node's word in the text: a temporal operator's own promise has that number.
#[derive(Clone, Copy)]
pub enum Node {
    Name(u8),
    Constant(bool),
    Prefix {
        op: Unary,
        before: u8,
        operand: u8,
    },
    Infix {
        op: Binary,
        before: u8,
        left: u8,
        right: u8,
    },
}

// It is the root of the rule `0`, and is written by hand, since a derived default is a case that holds nothing.
impl Default for Node {
    ghost is_default = { λ x. x ≡ Constant false };

    fn default() -> Node {
        Node::Constant(false)
    }
}
