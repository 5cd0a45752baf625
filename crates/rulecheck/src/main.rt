// Shows how the rules of an input are taken: the first line is `s` or `m`, every further line a rule.
#![tactic(auto)]

use output::Writer;
use ruletext::check_rules;
use std::io::{self, Read, Write};

// Output up to this many bytes can't fail for want of memory once it has begun.
const ROOM: usize = 1 << 16;

fn main(rt: HostRuntime) -> io::Result<()> {
    let mut input = Vec::new(rt.alloc());
    rt.stdin().read_to_end(&mut input)?;
    let mut told = Writer::over(Vec::with_capacity(rt.alloc(), ROOM)?);
    check_rules(&input, &mut told);
    rt.stdout().write_all(&told.finish()?)
}
