ghost use Rattle.formulas.specs.Signs.{unary_sign};
ghost use Rattle.std.proofs.Common.{rules};

use crate::operator::Operator;

// The operators that stand before their operand, with their signs.
#[derive(Clone, Copy, PartialEq, Eq)]
pub enum Unary {
    Not = '!' as isize,
    Next = 'X' as isize,
    WeakNext = 'N' as isize,
    Finally = 'F' as isize,
    Globally = 'G' as isize,
}

impl Operator for Unary {
    ghost sign = { unary_sign };

    ghost apart = { Prim.search rules };

    fn sign(self) -> u8 {
        self as u8
    }
}
