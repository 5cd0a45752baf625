// All is put piece by piece, as in `faults`.
ghost use Rattle.std.specs.Prelude.{◌<◌, length};
ghost use Rattle.formulas.specs.Trees.{Standing, formula_at};
ghost use Rattle.output.specs.Writing.{Wrote};
ghost use Rattle.rules.specs.Reading.{rule_formula};
ghost use Rattle.ruletext.specs.Shown.{spelling, shown, digit};

use events::Kind;
use formulas::{Node, Operator};
use output::Writer;
use rules::Rule;

fn show_name<K: Kind>(n: u8, out: &mut Writer)
    ensures { Wrote out.old (spelling K.Kind.NAMES K.Kind.text n) out.new }
{
    out.put(K::label(n).unwrap_or("?").as_bytes());
}

fn show_constant(truth: bool, out: &mut Writer)
    ensures { Wrote out.old (digit truth) out.new }
{
    out.put(if truth { b"1" } else { b"0" });
}

// The formula whose root is the node `at`, every operator in brackets with its operands.
#[tactic(auto, using(crate::proofs::Showing::showing))]
fn show<K: Kind>(nodes: &[Node], at: usize, out: &mut Writer)
    requires inside { at < length nodes.now }
    requires stands { Standing nodes.now at }
    ensures { Wrote out.old (shown K.Kind.NAMES K.Kind.text (formula_at nodes.now at)) out.new }
{
    let node = nodes[at];
    match node {
        Node::Name(n) => show_name::<K>(n, out),
        Node::Constant(truth) => show_constant(truth, out),
        Node::Prefix { op, operand, .. } => {
            out.put(b"(");
            out.put_byte(op.sign());
            out.put(b" ");
            show::<K>(nodes, operand as usize, out);
            out.put(b")");
        }
        Node::Infix {
            op,
            left,
            right,
            ..
        } => {
            out.put(b"(");
            show::<K>(nodes, left as usize, out);
            out.put(b" ");
            out.put_byte(op.sign());
            out.put(b" ");
            show::<K>(nodes, right as usize, out);
            out.put(b")");
        }
    }
}

// The rule that a record holds, fully bracketed.
#[tactic(auto, using(crate::proofs::Holding::some_nodes, crate::proofs::Holding::root_stands))]
pub fn show_rule<K: Kind>(rule: &Rule<K>, out: &mut Writer)
    ensures { Wrote out.old (shown K.Kind.NAMES K.Kind.text (rule_formula rule.now)) out.new }
{
    let nodes = rule.nodes();
    show::<K>(nodes, nodes.len() - 1, out);
}
