use script::read_number;
use sheets::{Ruler, RulerRefusal};
use std::env::FillError;
use std::io;
use std::io::Read;
use std::rt::Env;

const DEFAULT_WIDTH: u32 = 40;

// A ruler of the width that the first argument is, in one to nine decimal digits.
pub fn asked_ruler(rt: &HostRuntime) -> Result<Ruler, RulerRefusal> {
    // The argument is not taken by `env::args`, which fails where any argument is not UTF-8, while here that is no width.
    let mut word = [0u8; 10];
    let width = match rt.arg(1, &mut word) {
        Ok(n) => read_number(&word[..n]),
        Err(FillError::NotPresent) => Some(DEFAULT_WIDTH),
        Err(FillError::TooLong) => None,
    };
    Ruler::new(width.ok_or(RulerRefusal::WidthNot1To100)?)
}

pub fn read_text(rt: &HostRuntime) -> io::Result<Vec<u8>> {
    let mut text = Vec::new(rt.alloc());
    rt.stdin().read_to_end(&mut text)?;
    Ok(text)
}
