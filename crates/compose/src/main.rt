// Writes the records that the lines of standard input state; at a line that states none, nothing.
#![tactic(auto)]

use anyhow::anyhow;
use notation::bodies::Bodies;
use notation::composing::{ComposeFault, compose};
use std::env;
use std::io::{Read, Write};

// With `--sentences`, a record may say only what wording takes for a sentence.
fn wanted(rt: &HostRuntime) -> anyhow::Result<Bodies> {
    let mut bodies = Bodies::Any;
    for word in env::args(rt)?.skip(1) {
        if word.as_str() != "--sentences" {
            return Err(anyhow!("usage: compose [--sentences] <lines >records"));
        }
        bodies = Bodies::Sentences;
    }
    Ok(bodies)
}

fn run(rt: &HostRuntime) -> anyhow::Result<()> {
    let bodies = wanted(rt)?;
    let mut text = Vec::new(rt.alloc());
    let _count = rt.stdin().read_to_end(&mut text)?;
    match compose(rt.alloc(), text.as_slice(), bodies) {
        Ok(records) => {
            rt.stdout().write_all(records.as_slice())?;
            Ok(())
        }
        Err(ComposeFault::Line(number)) => {
            explain(rt, number, bodies)?;
            Err(anyhow!("nothing was written"))
        }
        Err(ComposeFault::Memory) => Err(anyhow!("not enough memory")),
    }
}

fn explain(rt: &HostRuntime, number: usize, bodies: Bodies) -> anyhow::Result<()> {
    eprintln!(rt;
        "line {number}: no record: a line is uN, a space and a text, with N from 0 to 63 and 1 to 64 bytes in the text"
    )?;
    if bodies == Bodies::Sentences {
        eprintln!(rt; "and the text has to be a sentence, with its numbers in range")?;
    }
    Ok(())
}

fn main(rt: HostRuntime) -> anyhow::Result<()> {
    run(&rt)
}
