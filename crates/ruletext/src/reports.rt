ghost use Rattle.ruletext.specs.Reports.{Reported};

use crate::faults::{show_fault, show_size, show_spaces, show_text};
use crate::shown::show_rule;
use events::Kind;
use output::Writer;
use rules::Rule;

// Reads the text as a rule and tells how it is taken.
pub fn report<K: Kind>(text: &[u8], out: &mut Writer)
    ensures { Reported K.Kind.NAMES K.Kind.text text.now out.old out.new }
{
    let mut rule: Rule<K> = Rule::new();
    match rule.read(text) {
        Ok(size) => {
            show_size(size, out);
            out.put(b"\n");
            show_rule(&rule, out);
            out.put(b"\n");
        }
        Err(fault) => {
            show_fault(fault.refusal, fault.place, out);
            out.put(b"\n");
            show_text(text, out);
            out.put(b"\n");
            show_spaces(fault.place, out);
            out.put(b"^\n");
        }
    }
}
