// The second reading of a rule text, and its report. Its words, refusals, limits and printing are its own, though alike, since it shares no code
// with the library.
use crate::completion::first_stray;
use crate::refusal::{Fault, Refusal, Stop};
use crate::splits::formula;
use crate::words::{Word, words_of};
use events::Kind;
use std::alloc::{AllocError, Global};
use std::fmt;

const LONGEST_TEXT: usize = 256;

const MOST_NODES: usize = 48;

const MOST_PROMISES: usize = 12;

#[derive(Drop)]
struct Reading {
    nodes: usize,
    promises: usize,
    formula: String,
}

impl fmt::Display for Reading {
    fn fmt<W: fmt::Write>(&self, f: &mut fmt::Formatter<W>) -> fmt::Result {
        let nodes = self.nodes;
        let promises = self.promises;
        let formula = self.formula.as_str();
        write!(f, "nodes {nodes} promises {promises}\n{formula}\n")
    }
}

// Bytes as text, with a question mark for each that is no printed character.
#[derive(Clone, Copy)]
pub struct Shown<'a>(pub &'a [u8]);

impl fmt::Display for Shown<'_> {
    fn fmt<W: fmt::Write>(&self, f: &mut fmt::Formatter<W>) -> fmt::Result {
        for byte in self.0 {
            f.write_char(match byte {
                b' '..=b'~' => char::from(*byte),
                _ => '?',
            })?;
        }
        Ok(())
    }
}

// How many places there are; with more than the most, the fault stands at the first that is too many.
fn count(places: &[usize], most: usize, refusal: Refusal) -> Result<usize, Fault> {
    match places.get(most) {
        Some(place) => Err(Fault {
            refusal,
            place: *place,
        }),
        None => Ok(places.len()),
    }
}

fn read<K: Kind>(heap: Global, text: &[u8]) -> Result<Reading, Stop<Fault>> {
    if text.len() > LONGEST_TEXT {
        return Err(Stop::Text(Fault {
            refusal: Refusal::LongText,
            place: LONGEST_TEXT,
        }));
    }
    let placed = words_of::<K>(heap, text)?;
    let words: Vec<Word> = placed.iter().map(|word| word.part).collect(heap)?;
    let Some(formula) = formula(heap, words.as_slice())? else {
        let stray = first_stray(heap, words.as_slice())?;
        let place = stray
            .and_then(|i| placed.get(i))
            .map_or(text.len(), |word| word.place);
        return Err(Stop::Text(Fault {
            refusal: Refusal::NoRule,
            place,
        }));
    };
    let nodes: Vec<usize> = placed
        .iter()
        .filter(|word| !word.part.is_bracket())
        .map(|word| word.place)
        .collect(heap)?;
    let promises: Vec<usize> = placed
        .iter()
        .filter(|word| word.part.is_temporal())
        .map(|word| word.place)
        .collect(heap)?;
    Ok(Reading {
        nodes: count(nodes.as_slice(), MOST_NODES, Refusal::ManyNodes)?,
        promises: count(promises.as_slice(), MOST_PROMISES, Refusal::ManyPromises)?,
        formula,
    })
}

pub fn report<K: Kind>(heap: Global, text: &[u8]) -> Result<String, AllocError> {
    match read::<K>(heap, text) {
        Ok(reading) => format!(in heap; "{reading}"),
        Err(Stop::Text(fault)) => {
            let shown = Shown(text);
            let place = fault.place;
            format!(in heap; "{fault}\n{shown}\n{:place$}^\n", "")
        }
        Err(Stop::Memory(error)) => Err(error),
    }
}
