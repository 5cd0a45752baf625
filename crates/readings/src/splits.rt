ghost use Rattle.std.specs.Prelude.{◌<◌, length, IfOk, IfSome};

use crate::refusal::{NoRule, Stop};
use crate::words::{Joint, Word};
use std::alloc::{AllocError, Global};

// How many brackets are open after the words, where none closes that was not open.
pub fn open_brackets(words: &[Word]) -> Result<usize, NoRule> {
    let mut open: usize = 0;
    for word in words {
        match word {
            Word::Open => open += 1,
            Word::Close => open = open.checked_sub(1).ok_or(NoRule)?,
            _ => {}
        }
    }
    Ok(open)
}

// An operator with its first and its last index among those outside brackets.
#[derive(Clone, Copy)]
struct Spread {
    operator: Joint,
    first: usize,
    last: usize,
}

// The weakest operator outside brackets, if there is one. A `for` with the index, since the brackets that are open are counted on the way; one
// pass over the words for all operators, since most of a reading's time goes here.
fn weakest(words: &[Word]) -> Option<Spread>
    ensures { IfSome result (λ s. (s.first < length words.now) × (s.last < length words.now)) }
{
    let mut found: Option<Spread> = None;
    let mut open: usize = 0;
    for (i, word) in words.iter().enumerate() {
        match word {
            Word::Open => open += 1,
            Word::Close => open = open.saturating_sub(1),
            Word::Between(joint) if open == 0 => {
                found = match found {
                    Some(spread) if spread.operator < *joint => found,
                    Some(spread) if spread.operator == *joint => Some(Spread { last: i, ..spread }),
                    _ => Some(Spread {
                        operator: *joint,
                        first: i,
                        last: i,
                    }),
                };
            }
            _ => {}
        }
    }
    found
}

// What stands before and after an operator.
#[derive(Clone, Copy)]
struct Parts<'a> {
    left: &'a [Word],
    operator: Joint,
    right: &'a [Word],
}

// The words split at the weakest operator outside brackets, if there is one: `=` joins two parts and no more, `>` and `U` group to the right, `|` and `&` to the left.
fn split(words: &[Word]) -> Result<Option<Parts<'_>>, NoRule>
    ensures { IfOk result (λ o. IfSome o (λ s. (length s.left.now < length words.now) × (length s.right.now < length words.now))) }
{
    if open_brackets(words)? != 0 {
        return Err(NoRule);
    }
    let Some(spread) = weakest(words) else {
        return Ok(None);
    };
    let operator = spread.operator;
    let at = match operator {
        Joint::Agrees if spread.first != spread.last => return Err(NoRule),
        Joint::Agrees | Joint::Implies | Joint::Until => spread.first,
        Joint::Or | Joint::And => spread.last,
    };
    Ok(Some(Parts {
        left: &words[..at],
        operator,
        right: &words[at + 1..],
    }))
}

// The heap goes from call to call beside the words, since one struct of both would be made anew for each part.
fn bracketed(heap: Global, words: &[Word]) -> Result<String, Stop<NoRule>> {
    if let Some(parts) = split(words)? {
        let left = bracketed(heap, parts.left)?;
        let right = bracketed(heap, parts.right)?;
        let operator = parts.operator;
        return Ok(format!(in heap; "({left} {operator} {right})")?);
    }
    match words {
        [Word::Open, inner @ .., Word::Close] => bracketed(heap, inner),
        [first, rest @ ..] => match first {
            Word::Atom(text) if rest.is_empty() => Ok(String::from_str(heap, text)?),
            Word::Before(operator) => {
                let operand = bracketed(heap, rest)?;
                Ok(format!(in heap; "({operator} {operand})")?)
            }
            _ => Err(Stop::Text(NoRule)),
        },
        [] => Err(Stop::Text(NoRule)),
    }
}

// The words as a formula with all its brackets, where they are a rule.
pub fn formula(heap: Global, words: &[Word]) -> Result<Option<String>, AllocError> {
    match bracketed(heap, words) {
        Ok(formula) => Ok(Some(formula)),
        Err(Stop::Text(NoRule)) => Ok(None),
        Err(Stop::Memory(error)) => Err(error),
    }
}
