// Reads a number of frames and pages from standard input, and prints what each touch came to over
// FIFO, and the totals.
#![tactic(auto)]

use listing::listing::listing;
use std::io::{Read, Write};

fn run(rt: &HostRuntime) -> anyhow::Result<()> {
    let heap = rt.alloc();
    let mut text = Vec::new(heap);
    let _ = rt.stdin().read_to_end(&mut text)?;
    let lines = listing(heap, text.as_slice())?;
    rt.stdout().write_all(lines.as_bytes())?;
    Ok(())
}

fn main(rt: HostRuntime) -> anyhow::Result<()> {
    run(&rt)
}
