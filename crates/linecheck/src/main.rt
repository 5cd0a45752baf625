// Watches sheet events, one a line of standard input, against a width: the first argument, or 40.
#![tactic(auto)]

use bench::{Calls, LookBench, Slip, write_off};
use linewatch::{Row, Step, take_line};
use numbered::Numbered;
use sheets::{Ruler, RulerRefusal};
use std::io::{BufRead, BufReader};
use std::{env, io};

const USUAL_WIDTH: u32 = 40;

// How the taking of events ended: up to the end or to the moment when the run is lost, or at a line that is refused.
#[derive(Clone, Copy)]
enum Ending {
    Taken,
    BrokenOff,
}

// The width that is asked for, where it is a number. Not read as `replay` reads it: here `+5` and ten digits are numbers too.
fn asked_width(rt: &HostRuntime) -> io::Result<Option<u32>> {
    match env::args(rt)?.nth(1) {
        None => Ok(Some(USUAL_WIDTH)),
        Some(text) => Ok(text.as_str().parse::<u32>().ok()),
    }
}

// Takes the events of all lines, up to the first refusal or to the moment when the run is lost. The runtime goes beside the bench, as to every
// function that prints. The lines share one buffer: `split` would make one for each, which costs time and can fail at any line for want of memory.
fn take_all(rt: &HostRuntime, bench: &mut LookBench<Ruler>) -> io::Result<Ending> {
    let mut input = BufReader::new(rt.alloc(), rt.stdin())?;
    let mut row = Row::first();
    let mut line = Vec::new(rt.alloc());
    for number in 1..u64::MAX {
        line.clear();
        if input.read_until(b'\n', &mut line)? == 0 {
            break;
        }
        match take_line(bench, &mut row, line.strip_suffix(b"\n").unwrap_or(&line)) {
            Ok(Step::Struck) => {}
            Ok(Step::RowClosed(row)) => {
                println!(rt; "line {} closed: {} cells", row.number, row.cells)?;
            }
            Ok(Step::Lost(count)) => {
                println!(rt; "lost after {count} events")?;
                return Ok(Ending::Taken);
            }
            Err(refusal) => {
                println!(rt;
                    "input line {number} refused: {}, {refusal}",
                    refusal.number()
                )?;
                return Ok(Ending::BrokenOff);
            }
        }
    }
    Ok(Ending::Taken)
}

// Tells the mark twice, by ask and by close, and ends the run.
fn tell(rt: &HostRuntime, bench: &mut LookBench<Ruler>, slip: Slip) -> io::Result<()> {
    let asked = bench.ask();
    match bench.close(slip) {
        Ok(report) => {
            if let Ok(before) = asked {
                println!(rt; "ask: {before}")?;
            }
            println!(rt; "close: {report}")
        }
        Err((slip, refusal)) => {
            write_off(slip);
            println!(rt; "close refused: {}", refusal.number())
        }
    }
}

// Tells of the slip, and takes the events of all lines.
fn begin(rt: &HostRuntime, bench: &mut LookBench<Ruler>, slip: &Slip) -> io::Result<Ending> {
    println!(rt;
        "run opened: slip of bench {}, run {}",
        slip.bench(),
        slip.run()
    )?;
    take_all(rt, bench)
}

// A run with an event that could not be taken gets no mark: its slip is written off.
fn watch(rt: &HostRuntime, ruler: Ruler) -> io::Result<()> {
    let mut bench = LookBench::new(1, ruler);
    let slip = match bench.open() {
        Ok(slip) => slip,
        Err(refusal) => return println!(rt; "open refused: {}", refusal.number()),
    };
    match begin(rt, &mut bench, &slip) {
        Ok(Ending::Taken) => tell(rt, &mut bench, slip),
        Ok(Ending::BrokenOff) => {
            write_off(slip);
            println!(rt; "run broken off: slip written off, no mark")
        }
        Err(fault) => {
            write_off(slip);
            Err(fault)
        }
    }
}

fn run(rt: &HostRuntime) -> anyhow::Result<()> {
    let width = asked_width(rt)?.ok_or(RulerRefusal::WidthNot1To100);
    match width.and_then(Ruler::new) {
        Ok(ruler) => watch(rt, ruler)?,
        Err(refusal) => println!(rt; "width refused: {}, it must be 1 to 100", refusal.number())?,
    }
    Ok(())
}

fn main(rt: HostRuntime) -> anyhow::Result<()> {
    run(&rt)
}
