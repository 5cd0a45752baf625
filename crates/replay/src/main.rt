// Re-enacts a script of turns, one a line on the standard input, at four new benches over line rulers.
#![tactic(auto)]

mod reading;
mod telling;

use bench::write_off_all;
use events::{MachineEvent, SheetEvent};
use numbered::Numbered;
use observers::Port;
use reading::{asked_ruler, read_text};
use script::{ScriptError, read_script};
use session::{Numbers, Turn, replay};
use sheets::{Hammer, Ruler};
use std::alloc::AllocError;
use std::io;
use telling::tell;

const NUMBERS: Numbers = Numbers {
    watch: 1,
    plain: 2,
    first: 3,
    second: 4,
};

fn perform(
    rt: &HostRuntime,
    ruler: Ruler,
    text: &[u8],
    turns: Vec<Turn<SheetEvent, MachineEvent>>,
) -> io::Result<()> {
    let heap = rt.alloc();
    let mut held = Vec::new(heap);
    let hammer = Port::new(Hammer, ruler);
    let replies = Vec::new(heap);
    let done = replay(
        NUMBERS, ruler, hammer, ruler, ruler, &mut held, turns, replies,
    );
    let told = tell(rt, text, done, held.as_slice());
    write_off_all(held);
    told
}

fn run(rt: &HostRuntime, ruler: Ruler) -> io::Result<()> {
    let text = read_text(rt)?;
    match read_script(rt.alloc(), text.as_slice()) {
        Ok(turns) => perform(rt, ruler, text.as_slice(), turns),
        Err(ScriptError::Line(bad)) => println!(rt; "{bad}"),
        Err(ScriptError::Memory) => Err(io::Error::from(AllocError)),
    }
}

fn main(rt: HostRuntime) -> io::Result<()> {
    match asked_ruler(&rt) {
        Ok(ruler) => run(&rt, ruler),
        Err(refusal) => println!(rt; "refused {}: the width must be 1 to 100", refusal.number()),
    }
}
