// The command-line tool over the library: a command on each line of the input, and an answer on each line of the output.
#![tactic(auto)]

mod answer;
mod calling;
mod checking;
mod command;
mod layout;
mod packing;
mod program;
mod request;
mod storing;
mod unpacking;

use crate::command::answer_to;
use std::io::{BufRead, BufReader, BufWriter, Write};
use words::Refusal;

// Input and output are buffered: a line can be long, and there can be many. Each answer goes out before the next line is read, so
// that a program can talk to this one.
fn run(rt: &HostRuntime) -> anyhow::Result<()> {
    let heap = rt.alloc();
    let mut out = BufWriter::new(heap, rt.stdout())?;
    for line in BufReader::new(heap, rt.stdin())?.lines(heap) {
        match answer_to(heap, line?.as_bytes()) {
            Ok(answer) => writeln!(out, "{answer}")?,
            Err(Refusal::NoMemory(no_memory)) => return Err(no_memory.into()),
            Err(refusal) => writeln!(out, "{refusal}")?,
        }
        out.flush()?;
    }
    Ok(())
}

fn main(rt: HostRuntime) -> anyhow::Result<()> {
    run(&rt)
}
