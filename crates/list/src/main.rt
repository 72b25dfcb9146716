// Prints the records that standard input holds, a line each, and the refusal at which they end.
#![tactic(auto)]

use notation::listing::listing;
use std::io::{Read, Write};

fn run(rt: &HostRuntime) -> anyhow::Result<()> {
    let mut input = Vec::new(rt.alloc());
    let _count = rt.stdin().read_to_end(&mut input)?;
    let text = listing(rt.alloc(), input.as_slice())?;
    rt.stdout().write_all(text.as_bytes())?;
    Ok(())
}

fn main(rt: HostRuntime) -> anyhow::Result<()> {
    run(&rt)
}
