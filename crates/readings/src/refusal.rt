use std::alloc::{AllocError, AllocFailed};
use std::fmt;

// Why a text is no rule, by number. A list of its own, though alike, since the second reading shares no code with the library.
#[derive(Clone, Copy)]
pub enum Refusal {
    LongText = 10,
    NoWord = 11,
    LongName = 12,
    UnknownName = 13,
    NoRule = 14,
    ManyNodes = 15,
    ManyPromises = 16,
}

#[derive(Clone, Copy)]
pub struct Fault {
    pub refusal: Refusal,
    pub place: usize,
}

impl fmt::Display for Fault {
    fn fmt<W: fmt::Write>(&self, f: &mut fmt::Formatter<W>) -> fmt::Result {
        let number = self.refusal as u8;
        let place = self.place;
        write!(f, "fault {number} at {place}")
    }
}

// The words are no rule.
#[derive(Clone, Copy)]
pub struct NoRule;

// What ends a reading early: want of memory, or what is wrong with the text.
#[derive(Drop)]
pub enum Stop<E> {
    Memory(AllocError),
    Text(E),
}

// One impl for every E would overlap with the one for want of memory.
impl From<Fault> for Stop<Fault> {
    fn from(fault: Fault) -> Stop<Fault> {
        Stop::Text(fault)
    }
}

impl From<NoRule> for Stop<NoRule> {
    fn from(no_rule: NoRule) -> Stop<NoRule> {
        Stop::Text(no_rule)
    }
}

impl<E> From<AllocError> for Stop<E> {
    fn from(error: AllocError) -> Stop<E> {
        Stop::Memory(error)
    }
}

impl<E, T: Drop> From<AllocFailed<T>> for Stop<E> {
    fn from(_refused: AllocFailed<T>) -> Stop<E> {
        Stop::Memory(AllocError)
    }
}
