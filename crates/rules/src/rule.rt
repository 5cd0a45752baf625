ghost use Rattle.std.specs.Prelude.{◌≤◌};
ghost use Rattle.arrayvec.specs.ArrayVec.{array_vec_len};
ghost use Rattle.rules.specs.Formed.{Formed};

use arrayvec::ArrayVec;
use formulas::Node;
use std::marker::PhantomData;

// A rule over the names of one kind of events: the nodes of its formula in fixed memory, operands before their operators, the root last.
#[derive(Drop)]
pub struct Rule<K> {
    pub(crate) nodes: ArrayVec<Node, 48>,
    pub(crate) promises: usize,
    pub(crate) kind: PhantomData<K>,
    ghost few_nodes: { array_vec_len nodes ≤ 48 },
    ghost few_promises: { promises ≤ 12 },
    ghost formed: { ∥ Formed nodes.items (array_vec_len nodes) promises ∥₁ },
}

// How many nodes and how many temporal operators a rule has.
#[derive(Clone, Copy, PartialEq, Eq, Debug)]
pub struct Size {
    pub nodes: usize,
    pub promises: usize,
}
