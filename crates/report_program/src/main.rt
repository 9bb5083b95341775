// Shows a report as a program: its table is copied through a flat and a paged store, read and printed record by record, and
// then damaged copies of it are checked and refused.
#![tactic(auto)]

mod damage;
mod listing;
mod program;
mod show;
mod stored;
mod storing;
mod telling;

use program::{program_bytes, program_rows};
use show::Trouble;
use std::process::ExitCode;
use stored::Stored;
use storing::{Layout, stored_as};
use telling::print_program;

// How many cells each store has that the table is put into.
const STORE_CELLS: usize = 2000;

// Prints how a store held the bytes.
fn print_stored(rt: &HostRuntime, name: &str, stored: &Stored) -> Result<(), Trouble> {
    let region = stored.region;
    let before = stored.before;
    let after = stored.after;
    let long = stored.back.len();
    println!(rt;
        "{name} store: put the bytes into region {region} and got {long} back; {before} cells were free before, {after} after"
    )?;
    Ok(())
}

// Prints what a flat and a paged store make of the bytes.
fn print_stores(rt: &HostRuntime, bytes: &[u8]) -> Result<(), Trouble> {
    let flat = stored_as(rt.alloc(), Layout::Flat, STORE_CELLS, bytes)?;
    print_stored(rt, "flat", &flat)?;
    let paged = stored_as(rt.alloc(), Layout::Paged, STORE_CELLS, bytes)?;
    print_stored(rt, "paged", &paged)?;
    if flat.back == paged.back {
        println!(rt; "both stores gave back the same bytes")?;
    } else {
        println!(rt; "the stores gave back different bytes")?;
    }
    Ok(())
}

fn run(rt: &HostRuntime) -> Result<(), Trouble> {
    let rows = program_rows(rt.alloc())?;
    let bytes = program_bytes(rt.alloc(), &rows)?;
    print_stores(rt, &bytes)?;
    print_program(rt, &bytes)
}

fn main(rt: HostRuntime) -> ExitCode {
    match run(&rt) {
        Ok(()) => ExitCode::SUCCESS,
        Err(trouble) => {
            let _ = eprintln!(rt; "the program is not shown: {trouble}");
            ExitCode::FAILURE
        }
    }
}
