use crate::second;
use crate::second::Shown;
use crate::table::{Entry, Names};
use events::{Kind, MachineEvent, SheetEvent};
use output::Writer;
use ruletext::report;
use std::alloc::{AllocError, Global};
use std::fmt;

// The reports of one text.
#[derive(Drop)]
pub struct Reports {
    second: String,
    library: Vec<u8>,
}

// How the reports differ from the answer, or from each other.
#[derive(Clone, Copy)]
pub enum Difference<'a> {
    FirstLines {
        want: &'a [u8],
        second: &'a [u8],
        library: &'a [u8],
    },
    Below,
}

impl fmt::Display for Difference<'_> {
    fn fmt<W: fmt::Write>(&self, f: &mut fmt::Formatter<W>) -> fmt::Result {
        match self {
            Difference::FirstLines {
                want,
                second,
                library,
            } => {
                let want = Shown(want);
                let second = Shown(second);
                let library = Shown(library);
                write!(f, "want {want}, second {second}, library {library}")
            }
            Difference::Below => write!(f, "the reports differ below their first line"),
        }
    }
}

fn first_line(report: &[u8]) -> &[u8] {
    report.split(|byte| *byte == b'\n').next().unwrap_or(report)
}

fn library_report<K: Kind>(heap: Global, text: &[u8]) -> Result<Vec<u8>, AllocError> {
    let mut told = Writer::over(Vec::new(heap));
    report::<K>(text, &mut told);
    told.finish()
}

impl Reports {
    fn by<K: Kind>(heap: Global, text: &[u8]) -> Result<Reports, AllocError> {
        Ok(Reports {
            second: second::report::<K>(heap, text)?,
            library: library_report::<K>(heap, text)?,
        })
    }

    // The kind of a text is a value, and the kind itself a type, which only a match can pick.
    pub fn of(heap: Global, entry: Entry<'_>) -> Result<Reports, AllocError> {
        match entry.names {
            Names::Sheet => Reports::by::<SheetEvent>(heap, entry.text),
            Names::Machine => Reports::by::<MachineEvent>(heap, entry.text),
        }
    }

    // Both reports begin with the answer and are alike.
    pub fn compare<'a>(&'a self, answer: &'a [u8]) -> Result<(), Difference<'a>> {
        let second = first_line(self.second.as_bytes());
        let library = first_line(self.library.as_slice());
        if second != answer || library != answer {
            return Err(Difference::FirstLines {
                want: answer,
                second,
                library,
            });
        }
        if self.second.as_bytes() != self.library.as_slice() {
            return Err(Difference::Below);
        }
        Ok(())
    }
}
