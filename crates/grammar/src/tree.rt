ghost use Rattle.std.specs.Prelude.{◌≤◌, length};

use arrayvec::ArrayVec;
use formulas::Node;

// The nodes of a formula in fixed memory, operands before their operators, and how many temporal operators were met so far.
#[derive(Drop)]
pub struct Tree {
    pub(crate) nodes: ArrayVec<Node, 256>,
    pub(crate) operators: usize,
    ghost few: { length nodes.items ≤ 256 },
}

impl Tree {
    ghost use Rattle.std.specs.Prelude.{◌≡◌, ◌<◌, ◌≤◌, [], ◌∷◌, ◌++◌, length};
    ghost use Rattle.grammar.specs.Nodes.{front};

    pub(crate) fn new() -> Tree
        ensures nodes { front result ≡ [] }
        ensures operators { result.operators ≡ 0 }
    {
        Tree {
            nodes: ArrayVec::new(),
            operators: 0,
        }
    }

    // Adds a node, and tells its index.
    pub(crate) fn push(&mut self, node: Node) -> u8
        requires { length (front self.old) < 256 }
        ensures root { result ≡ length (front self.old) }
        ensures added { front self.new ≡ front self.old ++ node ∷ [] }
        ensures operators { self.new.operators ≡ self.old.operators }
    {
        let root = self.nodes.len();
        self.nodes.push(node);
        root as u8
    }

    pub fn nodes(&self) -> &[Node]
        ensures items { result.now ≡ front self.now }
        ensures count { length result.now ≡ length (front self.now) }
        ensures few { length result.now ≤ 256 }
    {
        self.nodes.as_slice()
    }

    pub fn promises(&self) -> usize
        ensures { result ≡ self.now.operators }
    {
        self.operators
    }
}
