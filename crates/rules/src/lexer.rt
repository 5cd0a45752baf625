ghost use Rattle.std.specs.Prelude.{◌≡◌, ℕ, ◌<◌, ◌≤◌, length, Decides, MatchOption, MatchResult, ◌≢◌};
ghost use Rattle.rules.specs.Lexing.{Meant, Lexes, lexed, spoilt};

use crate::refusal::{Fault, RuleRefusal};
use crate::sentence::{LONGEST, Sentence};
use crate::words::{Piece, Sign, Words};
use events::Kind;
use formulas::Word;

fn is_name<K: Kind>(n: u8, letters: &[u8]) -> bool
    ensures { Decides result ((n < K.Kind.NAMES) × (K.Kind.text n ≡ letters.now)) }
{
    K::label(n).is_some_and(|label| label.as_bytes() == letters)
}

// The number of the name that the letters are.
fn name_of<K: Kind>(letters: &[u8]) -> Option<u8>
    ensures { MatchOption result ((n : ℕ) → n < K.Kind.NAMES → K.Kind.text n ≢ letters.now) (λ n. (n < K.Kind.NAMES) × (K.Kind.text n ≡ letters.now)) }
{
    (0..K::NAMES).find(|n| is_name::<K>(*n, letters))
}

// What the bytes of a piece mean, or why they mean nothing.
#[tactic(auto, using(crate::specs::Lexing::mark, crate::specs::Lexing::foreign, crate::specs::Lexing::long))]
fn meaning<K: Kind>(piece: Piece) -> Result<Word, RuleRefusal>
    ensures { Meant K.Kind.NAMES K.Kind.text piece.entry.sign piece.entry.part.now result }
{
    match piece.sign {
        Sign::Mark(word) => Ok(word),
        Sign::Foreign => Err(RuleRefusal::ForeignByte),
        Sign::Letter if piece.part.len() > 8 => Err(RuleRefusal::LongName),
        Sign::Letter => name_of::<K>(piece.part)
            .map(Word::Name)
            .ok_or(RuleRefusal::UnknownName),
    }
}

// The words of a text, or its leftmost fault.
pub(crate) fn lex<K: Kind>(text: &[u8]) -> Result<Sentence, Fault>
    requires { length text.now ≤ LONGEST }
    ensures { MatchResult result (λ s. Lexes K.Kind.NAMES K.Kind.text text.now 0 (lexed s.words.items s.places.items) × (s.end ≡ length text.now)) (λ f. Lexes K.Kind.NAMES K.Kind.text text.now 0 (spoilt f.refusal f.place)) }
{
    let mut sentence = Sentence::new(text.len());
    for piece in Words::new(text) {
        let word = meaning::<K>(piece).map_err(|refusal| Fault {
            refusal,
            place: piece.place,
        })?;
        sentence.push(word, piece.place);
    }
    Ok(sentence)
}
