use bench::{Reply, Slip};
use lines::Lines;
use script::reply_words;
use std::alloc::{AllocError, Global};
use std::io;
use std::io::Write;

// Each line of the script with the reply to its turn.
fn add_turns(
    heap: Global,
    told: &mut Vec<u8>,
    script: &[u8],
    replies: Vec<Option<Reply>>,
) -> io::Result<()> {
    for (line, reply) in Lines::new(script).zip(replies) {
        let words = reply_words(heap, reply)?;
        // Put as bytes: a fifth of a run went into `writeln!`.
        told.extend_from_slice(line)?;
        told.extend_from_slice(b" -> ")?;
        told.extend_from_slice(words.as_bytes())?;
        told.push(b'\n')?;
    }
    Ok(())
}

fn add_slips(told: &mut Vec<u8>, held: &[Slip]) -> io::Result<()> {
    writeln!(told, "slips left: {}", held.len())?;
    for slip in held {
        writeln!(told, "bench {} run {}", slip.bench(), slip.run())?;
    }
    Ok(())
}

// Prints what was done and the slips that are left.
pub fn tell(
    rt: &HostRuntime,
    script: &[u8],
    done: Result<Vec<Option<Reply>>, AllocError>,
    held: &[Slip],
) -> io::Result<()> {
    let mut told = Vec::new(rt.alloc());
    add_turns(rt.alloc(), &mut told, script, done?)?;
    add_slips(&mut told, held)?;
    rt.stdout().write_all(told.as_slice())
}
