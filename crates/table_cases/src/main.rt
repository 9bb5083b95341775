// Judges program tables by their form: a command on each line of the input, and an answer on each line of the output.
#![tactic(auto)]

mod answer;

use crate::answer::answer_to;
use std::io::{BufRead, BufReader};
use words::Refusal;

// The input is buffered, since a table's line can be long.
fn run(rt: &HostRuntime) -> anyhow::Result<()> {
    let heap = rt.alloc();
    for line in BufReader::new(heap, rt.stdin())?.lines(heap) {
        match answer_to(heap, line?.as_str()) {
            Ok(()) => rt.println("formed")?,
            Err(Refusal::NoMemory(no_memory)) => return Err(no_memory.into()),
            Err(refusal) => rt.println(refusal)?,
        }
    }
    Ok(())
}

fn main(rt: HostRuntime) -> anyhow::Result<()> {
    run(&rt)
}
