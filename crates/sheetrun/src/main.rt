// Reads a sheet from standard input, behind which a text may stand, and prints what comes of it.
#![tactic(auto)]

use report::sheetrun::reply;
use std::io::{Read, Write};

const LIMIT: u64 = 65_536;

fn run(rt: &HostRuntime) -> anyhow::Result<()> {
    let heap = rt.alloc();
    let mut input = Vec::new(heap);
    rt.stdin().take(LIMIT).read_to_end(&mut input)?;
    let text = reply(heap, &input)?;
    rt.stdout().write_all(text.as_bytes())?;
    Ok(())
}

fn main(rt: HostRuntime) -> anyhow::Result<()> {
    run(&rt)
}
