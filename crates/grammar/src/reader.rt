ghost use Rattle.std.specs.Prelude.{◌≡◌, ◌≤◌, length};

use crate::tree::Tree;
use formulas::{Binary, Node, Word};

// A place in the words of a rule, and the tree of the words before it. The words stay whole beside the place, which is told where they are no rule.
#[derive(Drop)]
pub(crate) struct Reader<'a> {
    pub(crate) words: &'a [Word],
    pub(crate) at: usize,
    pub(crate) tree: Tree,
    ghost short: { length words.now ≤ 256 },
    ghost within: { at ≤ length words.now },
    ghost room: { length tree.nodes.items ≤ at },
    ghost few: { tree.operators ≤ at },
}

// The sign of an infix operator that was read, and how many temporal operators stand before it.
#[derive(Clone, Copy)]
pub(crate) struct Sign {
    pub(crate) op: Binary,
    pub(crate) before: u8,
}

impl<'a> Reader<'a> {
    ghost use Rattle.std.specs.Prelude.{◌≡◌, ◌≢◌, ◌<◌, ◌≤◌, length, MatchOption};
    ghost use Rattle.formulas.specs.declared.word.Word.TheVariants.{Infix as anInfix};
    ghost use Rattle.formulas.specs.declared.node.Node.TheVariants as node;
    ghost use Rattle.grammar.specs.Nodes.{front};
    ghost use Rattle.grammar.specs.Machine.{weak, rank};
    ghost use Rattle.grammar.specs.Parts.{rest, Begun, Next, Front, Passed, Pushed};

    pub(crate) fn new(words: &'a [Word]) -> Reader<'a>
        requires { length words.now ≤ 256 }
        ensures { Begun words.now result }
    {
        Reader {
            words,
            at: 0,
            tree: Tree::new(),
        }
    }

    // The next word.
    pub(crate) fn peek(&self) -> Option<Word>
        ensures { Front self.now result }
    {
        self.words.get(self.at).copied()
    }

    // Goes past the next word, counts it where it is temporal, and tells how many temporal operators were before it.
    pub(crate) fn pass(&mut self, word: Word) -> u8
        requires { Next self.old word }
        ensures { Passed self.old word self.new result }
    {
        let before = self.tree.operators;
        if word.is_temporal() {
            self.tree.operators = before + 1;
        }
        self.at += 1;
        before as u8
    }

    // Adds a node for a word that was passed.
    pub(crate) fn push(&mut self, node: Node) -> u8
        requires { length (front self.old.tree) < self.old.at }
        ensures { Pushed self.old node self.new result }
    {
        self.tree.push(node)
    }

    // Reads an infix operator, where it is the next word.
    pub(crate) fn infix(&mut self, op: Binary) -> Option<Sign>
        ensures { MatchOption result ((self.new ≡ self.old) × (weak (rest self.old) ≢ rank op)) (λ s. (s.op ≡ op) × Passed self.old (anInfix op) self.new s.before) }
    {
        if self.peek() != Some(Word::Infix(op)) {
            return None;
        }
        let before = self.pass(Word::Infix(op));
        Some(Sign { op, before })
    }

    // The node of an infix operator between two parts.
    pub(crate) fn join(&mut self, left: u8, sign: Sign, right: u8) -> u8
        requires { length (front self.old.tree) < self.old.at }
        ensures { Pushed self.old (node.Infix sign.op sign.before left right) self.new result }
    {
        self.push(Node::Infix {
            op: sign.op,
            before: sign.before,
            left,
            right,
        })
    }
}
