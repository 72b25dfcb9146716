// Runs the calls of standard input, a line each, through both graphs side by side, and prints
// what both tell. Then the same calls through link lists that are lent too little.
#![tactic(auto)]

mod call;
mod side_by_side;
mod table;

use call::{Call, Told};
use graphs::{BitRows, Link, LinkList};
use model::principal::Principal;
use side_by_side::{rows_and_list_alike, tell, tell_both};
use std::io;

const UNUSED: Link = Link {
    upper: Principal::User(0),
    lower: 0,
};

fn print_answers(rt: &HostRuntime, text: &str) -> anyhow::Result<()> {
    let mut memory = [UNUSED; 256];
    let mut rows = BitRows::new();
    let mut list = LinkList::new(&mut memory);
    for line in text.lines() {
        match line.parse::<Call>() {
            Ok(call) => match tell_both(&mut rows, &mut list, call) {
                Some(told) => println!(rt; "{line}: {told}")?,
                None => println!(rt; "{line}: the graphs differ")?,
            },
            Err(no_call) => println!(rt; "{line}: {no_call}")?,
        }
    }
    Ok(())
}

fn all_calls(rt: &HostRuntime, text: &str) -> anyhow::Result<Vec<Call>> {
    let calls = text
        .lines()
        .filter_map(|line| line.parse::<Call>().ok())
        .collect(rt.alloc())?;
    Ok(calls)
}

fn print_short(rt: &HostRuntime, memory: &mut [Link], calls: &[Call]) -> anyhow::Result<()> {
    let records = memory.len();
    let mut list = LinkList::new(memory);
    // One pass over flags: the calls that were answered yes are not kept.
    let (full, added) = calls.iter().fold((false, false), |(full, added), call| {
        let yes = tell(&mut list, *call) == Told::Flag(true);
        (
            full || yes && matches!(call, Call::AskMemory),
            added || yes && matches!(call, Call::Add(_, _)),
        )
    });
    println!(rt; "over {records} records: full memory {full}, links added {added}")?;
    Ok(())
}

fn run(rt: &HostRuntime) -> anyhow::Result<()> {
    let text = io::read_to_string(rt.alloc(), rt.stdin())?;
    print_answers(rt, text.as_str())?;
    let calls = all_calls(rt, text.as_str())?;
    let count = calls.len();
    let alike = rows_and_list_alike(&mut [UNUSED; 256], calls.as_slice());
    println!(rt; "{count} calls, alike: {alike}")?;
    print_short(rt, &mut [UNUSED; 255], calls.as_slice())?;
    print_short(rt, &mut [], calls.as_slice())
}

fn main(rt: HostRuntime) -> anyhow::Result<()> {
    run(&rt)
}
