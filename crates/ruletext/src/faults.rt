// All is put piece by piece, for a formatter can't promise that what there is room for does not fail.
ghost use Rattle.std.specs.Prelude.{◌≡◌, map, replicate};
ghost use Rattle.output.specs.Writing.{Wrote};
ghost use Rattle.ruletext.specs.Reports.{printing, size_words, fault_words};

use numbered::Numbered;
use output::Writer;
use rules::Size;

pub(crate) fn show_size(size: Size, out: &mut Writer)
    ensures { Wrote out.old (size_words size.nodes size.promises) out.new }
{
    out.put(b"nodes ");
    out.put_number(size.nodes);
    out.put(b" promises ");
    out.put_number(size.promises);
}

pub(crate) fn show_fault<R: Numbered>(refusal: R, place: usize, out: &mut Writer)
    ensures { Wrote out.old (fault_words (R.number refusal) place) out.new }
{
    out.put(b"fault ");
    out.put_number(usize::from(refusal.number()));
    out.put(b" at ");
    out.put_number(place);
}

// By literals as match cases, by a rule of the project.
fn printed(b: u8) -> u8
    ensures { result ≡ printing b }
{
    match b {
        b' '..=b'~' => b,
        _ => b'?',
    }
}

pub(crate) fn show_text(text: &[u8], out: &mut Writer)
    ensures { Wrote out.old (map printing text.now) out.new }
{
    for b in text {
        out.put_byte(printed(*b));
    }
}

pub(crate) fn show_spaces(count: usize, out: &mut Writer)
    ensures { Wrote out.old (replicate count 32) out.new }
{
    for _ in 0..count {
        out.put_byte(b' ');
    }
}
