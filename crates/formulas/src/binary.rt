ghost use Rattle.formulas.specs.Signs.{binary_sign};
ghost use Rattle.std.proofs.Common.{rules};

use crate::operator::Operator;

// The operators that stand between their operands, with their signs.
#[derive(Clone, Copy, PartialEq, Eq)]
pub enum Binary {
    And = '&' as isize,
    Or = '|' as isize,
    Implies = '>' as isize,
    Iff = '=' as isize,
    Until = 'U' as isize,
}

impl Operator for Binary {
    ghost sign = { binary_sign };

    ghost apart = { Prim.search rules };

    fn sign(self) -> u8 {
        self as u8
    }
}
