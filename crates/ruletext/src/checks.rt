ghost use Rattle.ruletext.specs.Checks.{Told, ToldOf, Checked, Put};

use crate::faults::show_fault;
use crate::reports::report;
use events::{Kind, MachineEvent, SheetEvent};
use lines::{Lines, cut_line};
use notation::{KindLetter, read_kind};
use output::Writer;

#[tactic(auto, using(crate::proofs::Telling::at_first, crate::proofs::Telling::one_more))]
fn report_lines<K: Kind>(text: &[u8], out: &mut Writer)
    ensures { Put (Told K.Kind.NAMES K.Kind.text text.now) out.old out.new }
{
    for line in Lines::new(text) {
        report::<K>(line, out);
    }
}

// The letter of a kind is a value, and the kind itself a type, which only a match can pick.
fn report_kind(kind: KindLetter, rules: &[u8], out: &mut Writer)
    ensures { Put (ToldOf kind rules.now) out.old out.new }
{
    match kind {
        KindLetter::Sheet => report_lines::<SheetEvent>(rules, out),
        KindLetter::Machine => report_lines::<MachineEvent>(rules, out),
    }
}

// Tells of every rule of an input how it is taken; the first line names the kind of its events.
#[tactic(auto, using(crate::proofs::Checking::of_rules, crate::proofs::Checking::of_no_kind))]
pub fn check_rules(input: &[u8], out: &mut Writer)
    ensures { Put (Checked input.now) out.old out.new }
{
    let (first, rules) = cut_line(input);
    match read_kind(first) {
        Ok(kind) => report_kind(kind, rules, out),
        Err(refusal) => {
            show_fault(refusal, 1, out);
            out.put(b"\n");
        }
    }
}
