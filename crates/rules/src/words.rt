ghost use Rattle.std.specs.Prelude.{◌≡◌, ℕ, Bool, ◌-◌, ◌<◌, ◌≤◌, length, ◌==◌};
ghost use Rattle.std.specs.List.{prefix_len};
ghost use Rattle.std.specs.Iterator.{at_most};
ghost use Rattle.rules.specs.Texts.{sign, letter, Taken};

use formulas::{Binary, Unary, Word};

// What begins with a byte: a name, a word of one sign, or no word.
#[derive(Clone, Copy)]
pub(crate) enum Sign {
    Letter,
    Mark(Word),
    Foreign,
}

// Characters are decided by literals as match cases, by a rule of the project.
impl From<u8> for Sign {
    ghost from_gives = { λ b s. s ≡ sign b };

    fn from(value: u8) -> Sign {
        match value as char {
            'a'..='z' => Sign::Letter,
            '1' => Sign::Mark(Word::Constant(true)),
            '0' => Sign::Mark(Word::Constant(false)),
            '(' => Sign::Mark(Word::Open),
            ')' => Sign::Mark(Word::Close),
            '!' => Sign::Mark(Word::Prefix(Unary::Not)),
            'X' => Sign::Mark(Word::Prefix(Unary::Next)),
            'N' => Sign::Mark(Word::Prefix(Unary::WeakNext)),
            'F' => Sign::Mark(Word::Prefix(Unary::Finally)),
            'G' => Sign::Mark(Word::Prefix(Unary::Globally)),
            '&' => Sign::Mark(Word::Infix(Binary::And)),
            '|' => Sign::Mark(Word::Infix(Binary::Or)),
            '>' => Sign::Mark(Word::Infix(Binary::Implies)),
            '=' => Sign::Mark(Word::Infix(Binary::Iff)),
            'U' => Sign::Mark(Word::Infix(Binary::Until)),
            _ => Sign::Foreign,
        }
    }
}

// By literals as match cases, as above.
fn is_space(b: u8) -> bool
    ensures { result ≡ (b == 32) }
{
    matches!(b as char, ' ')
}

// By literals as match cases, as above.
fn is_letter(b: u8) -> bool
    ensures { result ≡ letter b }
{
    matches!(b as char, 'a'..='z')
}

// How many bytes at the front pass the test.
fn run<F: Fn(u8) -> bool>(text: &[u8], test: F) -> usize
    requires { F.IsAlwaysCallable test }
    ensures exact { (p : ℕ → Bool) → ((b : ℕ) (r : Bool) → F.post test b r → r ≡ p b) → result ≡ prefix_len p text.now }
    ensures within { result ≤ length text.now }
{
    text.iter().take_while(|b| test(**b)).count()
}

// A word as a part of the text, with its place and what it begins with.
#[derive(Clone, Copy)]
pub(crate) struct Piece<'a> {
    pub(crate) sign: Sign,
    pub(crate) part: &'a [u8],
    pub(crate) place: usize,
}

// Hands out the words of a text one by one. The text stays whole beside the place, since each piece is told with its place in it.
#[derive(Drop)]
pub(crate) struct Words<'a> {
    text: &'a [u8],
    at: usize,
    ghost inside: { at ≤ length text.now },
}

impl<'a> Words<'a> {
    pub(crate) fn new(text: &'a [u8]) -> Words<'a>
        ensures start { result.at ≡ 0 }
        ensures text { result.text.now ≡ text.now }
    {
        Words { text, at: 0 }
    }
}

impl<'a> Iterator for Words<'a> {
    type Item = Piece<'a>;

    ghost next_gives = { λ s r t. (t.text.now ≡ s.text.now) × Taken s.text.now s.at r t.at };

    ghost remaining = { λ s. at_most (length s.text.now - s.at) };

    fn next(&mut self) -> Option<Piece<'a>> {
        let text = self.text;
        let place = self.at + run(&text[self.at..], is_space);
        let word = &text[place..];
        let sign = Sign::from(*word.first()?);
        let part = &word[..run(word, is_letter).max(1)];
        self.at = place + part.len();
        Some(Piece { sign, part, place })
    }
}
