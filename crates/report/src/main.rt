// Reports which of an office's deleted entries can still be brought back, and for how long: the office's list is
// packed and unpacked, and the report is made from what was unpacked. Refused bytes are shown behind it.
#![tactic(auto)]

mod age;
mod forms;
mod laying;
mod office;
mod part;
mod report;
mod row;
mod rows;
mod show;

use forms::{NO_TYPE, list_shapes};
use office::{Folder, sample};
use packed::Shapes;
use report::{Report, refusal, report_on};
use reporting::{FOLDERS, Verdict};
use rows::kept_count;
use show::{ReportWords, Trouble};
use std::process::ExitCode;

// Prints what was done, and what became of each entry.
fn print_report(rt: &HostRuntime, folders: &[Folder], report: &Report) -> Result<(), Trouble> {
    let folder_count = folders.len();
    let laid = report.laid;
    let long = report.bytes.len();
    let unpacked = report.unpacked;
    println!(rt; "laid out the deleted entries of {folder_count} folders as {laid} nodes")?;
    println!(rt; "packed the nodes into {long} bytes")?;
    println!(rt; "unpacked {unpacked} nodes from the bytes")?;
    for row in &report.rows {
        println!(rt; "{row}")?;
    }
    let kept = kept_count(&report.rows);
    let gone = report.rows.len() - kept;
    println!(rt; "{kept} entries can be brought back, {gone} are gone for good")?;
    Ok(())
}

// Prints whether bytes are refused as a tree of this type, and why.
fn print_refusal(
    rt: &HostRuntime,
    shapes: &Shapes,
    tried: &str,
    ty: u8,
    bytes: &[u8],
) -> Result<(), Trouble> {
    let fault = refusal(rt.alloc(), shapes, ty, bytes)?;
    let verdict = Verdict::<ReportWords>::new(tried, fault);
    println!(rt; "{verdict}")?;
    Ok(())
}

// Prints what becomes of the list's bytes when they are damaged or taken for something else.
fn print_refusals(rt: &HostRuntime, shapes: &Shapes, bytes: &[u8]) -> Result<(), Trouble> {
    let cut = &bytes[..bytes.len().saturating_sub(1)];
    print_refusal(rt, shapes, "cut by one byte", FOLDERS, cut)?;
    let mut longer = bytes.to_vec(rt.alloc())?;
    longer.push(0)?;
    print_refusal(rt, shapes, "one byte more", FOLDERS, &longer)?;
    print_refusal(rt, shapes, "as a type that does not exist", NO_TYPE, bytes)
}

fn run(rt: &HostRuntime) -> Result<(), Trouble> {
    let shapes = list_shapes()?;
    let folders = sample(rt.alloc())?;
    let report = report_on(rt.alloc(), &shapes, &folders)?;
    print_report(rt, &folders, &report)?;
    print_refusals(rt, &shapes, &report.bytes)
}

fn main(rt: HostRuntime) -> ExitCode {
    match run(&rt) {
        Ok(()) => ExitCode::SUCCESS,
        Err(trouble) => {
            let _ = eprintln!(rt; "no report: {trouble}");
            ExitCode::FAILURE
        }
    }
}
