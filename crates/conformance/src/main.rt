// Compares the replies to stored inputs with what they should be: a case a line, input and reply in hexadecimal.
#![tactic(auto)]

use anyhow::Context;
use report::hexadecimal;
use report::sheetrun::reply;
use std::alloc::Global;
use std::io::{BufRead, BufReader};

// Whether the reply to the input is the one that is stored.
fn agrees(heap: Global, line: &str) -> anyhow::Result<bool> {
    let (input, expected) = line.split_once(' ').context("a case has no space")?;
    let input = hexadecimal::bytes(heap, input.as_bytes())?;
    let input = input.context("an input is not hexadecimal")?;
    let expected = hexadecimal::bytes(heap, expected.as_bytes())?;
    let expected = expected.context("a reply is not hexadecimal")?;
    let text = reply(heap, &input)?;
    Ok(text.as_bytes() == expected.as_slice())
}

fn run(rt: &HostRuntime) -> anyhow::Result<()> {
    let mut cases: u64 = 0;
    let mut good: u64 = 0;
    for line in BufReader::new(rt.alloc(), rt.stdin())?.lines(rt.alloc()) {
        let line = line?;
        cases = cases.saturating_add(1);
        if agrees(rt.alloc(), line.as_str())? {
            good = good.saturating_add(1);
        } else {
            println!(rt; "case {cases} differs")?;
        }
    }
    println!(rt; "{cases} cases, {good} as expected")?;
    Ok(())
}

fn main(rt: HostRuntime) -> anyhow::Result<()> {
    run(&rt)
}
