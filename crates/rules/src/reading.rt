ghost use Rattle.std.specs.Prelude.{◌≡◌, false, length};
ghost use Rattle.formulas.specs.Formulas.{constant, promises};
ghost use Rattle.rules.specs.Reading.{rule_nodes, rule_formula, Reading, Within, Holding};

use crate::lexer::lex;
use crate::refusal::{Fault, RuleRefusal};
use crate::rule::{Rule, Size};
use crate::sentence::LONGEST;
use arrayvec::ArrayVec;
use events::Kind;
use formulas::Node;
use grammar::Tree;
use std::marker::PhantomData;

impl<K: Kind> Rule<K> {
    #[tactic(auto, using(crate::proofs::Moved::alone), unfolding(formulas::specs::Trees::formula_at))]
    // No `From<bool>`, since only the rule `0` is made so.
    fn of_constant(truth: bool) -> Rule<K>
        ensures { rule_formula result ≡ constant truth }
    {
        let mut nodes = ArrayVec::new();
        nodes.push(Node::Constant(truth));
        Rule {
            nodes,
            promises: 0,
            kind: PhantomData,
        }
    }

    // A new record holds the rule `0`.
    pub fn new() -> Rule<K>
        ensures { rule_formula result ≡ constant false }
    {
        Rule::of_constant(false)
    }

    // The record of a tree that is within the limits. No `From`, since a tree beyond them has no record.
    fn of(tree: &Tree) -> Rule<K>
        requires { Within tree.now }
        ensures { Holding tree.now result }
    {
        Rule {
            nodes: ArrayVec::try_from(tree.nodes()).unwrap(),
            promises: tree.promises(),
            kind: PhantomData,
        }
    }

    pub fn read(&mut self, text: &[u8]) -> Result<Size, Fault>
        ensures { Reading K.Kind.NAMES K.Kind.text text.now self.old self.new result }
    {
        if text.len() > LONGEST {
            return Err(Fault {
                refusal: RuleRefusal::TooLong,
                place: LONGEST,
            });
        }
        let tree = lex::<K>(text)?.understand()?;
        *self = Rule::of(&tree);
        Ok(Size {
            nodes: self.nodes.len(),
            promises: self.promises,
        })
    }

    pub fn nodes(&self) -> &[Node]
        ensures items { result.now ≡ rule_nodes self.now }
        ensures count { length result.now ≡ length (rule_nodes self.now) }
    {
        &self.nodes
    }

    #[tactic(auto, using(crate::proofs::Moved::rule_promises))]
    pub fn promises(&self) -> usize
        ensures { result ≡ promises (rule_formula self.now) }
    {
        self.promises
    }
}
