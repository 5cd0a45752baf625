use crate::refusal::{Fault, Refusal, Stop};
use events::Kind;
use std::alloc::{AllocError, Global};
use std::fmt;

const LONGEST_NAME: usize = 8;

// An operator before its operand. It and the words below are enums of their own, though alike, since the second reading shares no code with the
// library.
#[derive(Clone, Copy)]
pub enum Prefix {
    Not,
    Next,
    WeakNext,
    Finally,
    Globally,
}

impl fmt::Display for Prefix {
    fn fmt<W: fmt::Write>(&self, f: &mut fmt::Formatter<W>) -> fmt::Result {
        f.write_str(match self {
            Prefix::Not => "!",
            Prefix::Next => "X",
            Prefix::WeakNext => "N",
            Prefix::Finally => "F",
            Prefix::Globally => "G",
        })
    }
}

// An operator between two parts, the weakest first.
#[derive(Clone, Copy, PartialEq, PartialOrd)]
pub enum Joint {
    Agrees,
    Implies,
    Or,
    And,
    Until,
}

impl fmt::Display for Joint {
    fn fmt<W: fmt::Write>(&self, f: &mut fmt::Formatter<W>) -> fmt::Result {
        f.write_str(match self {
            Joint::Agrees => "=",
            Joint::Implies => ">",
            Joint::Or => "|",
            Joint::And => "&",
            Joint::Until => "U",
        })
    }
}

// A word of a rule text; an atom is a name or a constant, as it is written.
#[derive(Clone, Copy)]
pub enum Word {
    Open,
    Close,
    Atom(&'static str),
    Before(Prefix),
    Between(Joint),
}

impl Word {
    // No `TryFrom<u8>`, since a letter by itself is no word: it begins a name.
    fn sign(byte: u8) -> Result<Word, Refusal> {
        match byte {
            b'(' => Ok(Word::Open),
            b')' => Ok(Word::Close),
            b'1' => Ok(Word::Atom("1")),
            b'0' => Ok(Word::Atom("0")),
            b'!' => Ok(Word::Before(Prefix::Not)),
            b'X' => Ok(Word::Before(Prefix::Next)),
            b'N' => Ok(Word::Before(Prefix::WeakNext)),
            b'F' => Ok(Word::Before(Prefix::Finally)),
            b'G' => Ok(Word::Before(Prefix::Globally)),
            b'=' => Ok(Word::Between(Joint::Agrees)),
            b'>' => Ok(Word::Between(Joint::Implies)),
            b'|' => Ok(Word::Between(Joint::Or)),
            b'&' => Ok(Word::Between(Joint::And)),
            b'U' => Ok(Word::Between(Joint::Until)),
            _ => Err(Refusal::NoWord),
        }
    }

    fn name<K: Kind>(letters: &[u8]) -> Result<Word, Refusal> {
        if letters.len() > LONGEST_NAME {
            return Err(Refusal::LongName);
        }
        (0..K::NAMES)
            .find_map(|n| K::label(n).filter(|label| label.as_bytes() == letters))
            .map(Word::Atom)
            .ok_or(Refusal::UnknownName)
    }

    // The word that a run of letters or another byte is; a space is none.
    fn of<K: Kind>(run: &[u8]) -> Result<Option<Word>, Refusal> {
        match run {
            [b' '] => Ok(None),
            [byte] if !byte.is_ascii_lowercase() => Word::sign(*byte).map(Some),
            letters => Word::name::<K>(letters).map(Some),
        }
    }

    pub fn is_bracket(self) -> bool {
        matches!(self, Word::Open | Word::Close)
    }

    pub fn is_temporal(self) -> bool {
        matches!(
            self,
            Word::Before(Prefix::Next | Prefix::WeakNext | Prefix::Finally | Prefix::Globally)
                | Word::Between(Joint::Until)
        )
    }
}

// A part of a text with its place in it.
#[derive(Clone, Copy)]
pub struct Placed<T> {
    pub part: T,
    pub place: usize,
}

// The runs of letters of a text, and each other byte by itself. The places are summed here, since `chunk_by` hands out the parts alone.
fn runs(heap: Global, text: &[u8]) -> Result<Vec<Placed<&[u8]>>, AllocError> {
    let mut runs = Vec::new(heap);
    let mut place = 0;
    for part in text.chunk_by(|a, b| a.is_ascii_lowercase() && b.is_ascii_lowercase()) {
        runs.push(Placed { part, place })?;
        place += part.len();
    }
    Ok(runs)
}

pub fn words_of<K: Kind>(heap: Global, text: &[u8]) -> Result<Vec<Placed<Word>>, Stop<Fault>> {
    let mut words = Vec::new(heap);
    for run in &runs(heap, text)? {
        let place = run.place;
        let word = Word::of::<K>(run.part).map_err(|refusal| Fault { refusal, place })?;
        if let Some(part) = word {
            words.push(Placed { part, place })?;
        }
    }
    Ok(words)
}
