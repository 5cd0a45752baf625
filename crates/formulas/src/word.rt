ghost use Rattle.std.specs.Prelude.{◌≡◌};
ghost use Rattle.formulas.specs.Formulas.{node, temporal};

use crate::binary::Binary;
use crate::unary::Unary;

// A word of a rule; a name is its number in the kind of events, since by a rule of the project no name is known otherwise above `events`. The default stands where a row of fixed length has no word.
#[derive(Clone, Copy, PartialEq, Eq, Default)]
pub enum Word {
    Name(u8),
    Constant(bool),
    #[default]
    Open,
    Close,
    Prefix(Unary),
    Infix(Binary),
}

impl Word {
    // Every word but a bracket is a node of the formula.
    pub fn is_node(self) -> bool
        ensures { result ≡ node self }
    {
        !matches!(self, Word::Open | Word::Close)
    }

    // X, N, F, G and U are the temporal operators.
    pub fn is_temporal(self) -> bool
        ensures { result ≡ temporal self }
    {
        match self {
            Word::Prefix(op) => op != Unary::Not,
            Word::Infix(op) => op == Binary::Until,
            _ => false,
        }
    }
}
