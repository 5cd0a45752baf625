// The levels of the grammar, the tightest first: each reads the longest part of its level and tells its root, or tells where it fails.
// Two may differ in sign and next level alone: each sentence of the grammar is a function of its own, and they call each other in a cycle without a type parameter.
use crate::misread::Stray;
use crate::reader::Reader;
use formulas::{Binary, Node, Word};

impl Reader<'_> {
    ghost use Rattle.grammar.specs.Grammar.{operand as Operand, until as Until, conjunction as Conjunction, alternative as Alternative, implication as Implication};
    ghost use Rattle.grammar.specs.Parts.{Read, ReadRule};

    // an operand: a prefix operator before an operand, a name, a constant, or a rule in brackets
    #[cycle(levels)]
    fn operand(&mut self) -> Result<u8, Stray>
        ensures { Read Operand 1 self.old self.new result }
    {
        match self.peek() {
            Some(Word::Name(n)) => {
                self.pass(Word::Name(n));
                Ok(self.push(Node::Name(n)))
            }
            Some(Word::Constant(b)) => {
                self.pass(Word::Constant(b));
                Ok(self.push(Node::Constant(b)))
            }
            Some(Word::Prefix(op)) => {
                let before = self.pass(Word::Prefix(op));
                let operand = self.operand()?;
                Ok(self.push(Node::Prefix {
                    op,
                    before,
                    operand,
                }))
            }
            Some(Word::Open) => {
                self.pass(Word::Open);
                let inside = self.rule()?;
                if self.peek() != Some(Word::Close) {
                    return Err(Stray { at: self.at });
                }
                self.pass(Word::Close);
                Ok(inside)
            }
            Some(Word::Close | Word::Infix(_)) | None => Err(Stray { at: self.at }),
        }
    }

    // an until part: an operand, or operand `U` until part
    #[cycle(levels)]
    fn until(&mut self) -> Result<u8, Stray>
        ensures { Read Until 2 self.old self.new result }
    {
        let left = self.operand()?;
        let Some(sign) = self.infix(Binary::Until) else {
            return Ok(left);
        };
        let right = self.until()?;
        Ok(self.join(left, sign, right))
    }

    // a conjunction: until parts joined by `&`, grouped to the left
    #[cycle(levels)]
    fn conjunction(&mut self) -> Result<u8, Stray>
        ensures { Read Conjunction 3 self.old self.new result }
    {
        let mut left = self.until()?;
        while let Some(sign) = self.infix(Binary::And) {
            let right = self.until()?;
            left = self.join(left, sign, right);
        }
        Ok(left)
    }

    // an alternative: conjunctions joined by `|`, grouped to the left
    #[cycle(levels)]
    fn alternative(&mut self) -> Result<u8, Stray>
        ensures { Read Alternative 4 self.old self.new result }
    {
        let mut left = self.conjunction()?;
        while let Some(sign) = self.infix(Binary::Or) {
            let right = self.conjunction()?;
            left = self.join(left, sign, right);
        }
        Ok(left)
    }

    // an implication: an alternative, or alternative `>` implication
    #[cycle(levels)]
    fn implication(&mut self) -> Result<u8, Stray>
        ensures { Read Implication 5 self.old self.new result }
    {
        let left = self.alternative()?;
        let Some(sign) = self.infix(Binary::Implies) else {
            return Ok(left);
        };
        let right = self.implication()?;
        Ok(self.join(left, sign, right))
    }

    // a rule: an implication, or implication `=` implication
    #[cycle(levels)]
    pub(crate) fn rule(&mut self) -> Result<u8, Stray>
        ensures { ReadRule self.old self.new result }
    {
        let left = self.implication()?;
        let Some(sign) = self.infix(Binary::Iff) else {
            return Ok(left);
        };
        let right = self.implication()?;
        Ok(self.join(left, sign, right))
    }
}
