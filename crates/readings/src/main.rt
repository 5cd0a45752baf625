// Reads each rule text of a table twice, by the library and by a second reading that shares no code with it, and tells where they differ.
#![tactic(auto)]

mod completion;
mod refusal;
mod reports;
mod second;
mod splits;
mod table;
mod words;

use reports::Reports;
use std::io;
use std::io::{BufRead, BufReader};
use table::Entry;

// Whether a line's text is read as its answer says, and alike by both; where not, tells so.
fn alike(rt: &HostRuntime, number: u64, line: &[u8]) -> io::Result<bool> {
    let Some(entry) = Entry::of(line) else {
        println!(rt; "line {number}: no entry")?;
        return Ok(false);
    };
    let reports = Reports::of(rt.alloc(), entry)?;
    if let Err(difference) = reports.compare(entry.answer) {
        println!(rt; "line {number}: {difference}")?;
        return Ok(false);
    }
    Ok(true)
}

fn main(rt: HostRuntime) -> anyhow::Result<()> {
    let input = BufReader::new(rt.alloc(), rt.stdin())?;
    let mut same: u64 = 0;
    let mut differ: u64 = 0;
    for (number, line) in (1..u64::MAX).zip(input.split(rt.alloc(), b'\n')) {
        if alike(&rt, number, line?.as_slice())? {
            same += 1;
        } else {
            differ += 1;
        }
    }
    println!(rt; "{same} texts read alike, {differ} differ")?;
    Ok(())
}
