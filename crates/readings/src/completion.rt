use crate::splits::{formula, open_brackets};
use crate::words::Word;
use std::alloc::{AllocError, Global};
use std::iter::repeat_n;

// Whether the words, then some more, then a closing of all that is open, are a rule.
fn ends_well(heap: Global, words: &[Word], more: &[Word], open: usize) -> Result<bool, AllocError> {
    let whole: Vec<Word> = words
        .iter()
        .chain(more)
        .copied()
        .chain(repeat_n(Word::Close, open))
        .collect(heap)?;
    Ok(formula(heap, whole.as_slice())?.is_some())
}

// Whether further words, or none, make a rule of these: a closing of the open brackets does, or a constant before it.
fn completable(heap: Global, words: &[Word]) -> Result<bool, AllocError> {
    let Ok(open) = open_brackets(words) else {
        return Ok(false);
    };
    Ok(ends_well(heap, words, &[], open)? || ends_well(heap, words, &[Word::Atom("1")], open)?)
}

// The index of the first word with which the words cannot be completed any more, if there is one. A `for` over the lengths, since the test can
// run out of memory, and `find` takes none that fails.
pub fn first_stray(heap: Global, words: &[Word]) -> Result<Option<usize>, AllocError> {
    for i in 0..words.len() {
        if !completable(heap, &words[..=i])? {
            return Ok(Some(i));
        }
    }
    Ok(None)
}
