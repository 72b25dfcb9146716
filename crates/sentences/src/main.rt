// Tells of each line of the standard input what it says as a body: its sentence, spelled again, or the refusal.
#![tactic(auto)]

use spelling::spell;
use std::io;
use std::io::{Read, Write};
use wording::sentence_of;

fn answer(rt: &HostRuntime, body: &[u8]) -> io::Result<()> {
    match sentence_of(body) {
        Ok(sentence) => {
            let mut line = spell(rt.alloc(), sentence)?;
            line.push(b'\n')?;
            rt.stdout().write_all(line.as_slice())
        }
        Err(fault) => println!(rt; "{fault}"),
    }
}

fn main(rt: HostRuntime) -> io::Result<()> {
    let mut input = String::new(rt.alloc());
    let _count = rt.stdin().read_to_string(&mut input)?;
    for line in input.lines() {
        answer(&rt, line.as_bytes())?;
    }
    Ok(())
}
