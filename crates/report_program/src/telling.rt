// Prints a program's table, read from its bytes, and what becomes of damaged copies of it.
use crate::damage::with_byte;
use crate::listing::{Listed, Size};
use crate::program::ROW_BYTES;
use crate::show::{ProgramWords, Trouble};
use checker::Checked;
use reporting::Verdict;
use table::{Layout, Table};

// Places in the rows of the program that is written here, from the first row on: where row 1 names the row of its body, which
// variable row 51 gives, what row 55 adds, and which lines row 16 puts first.
const FIRST_BODY: usize = ROW_BYTES + 4;

const GIVEN_COUNT: usize = 51 * ROW_BYTES + 1;

const ADDED_ONE: usize = 55 * ROW_BYTES + 2;

const LINES_OF_THE_WEEK: usize = 16 * ROW_BYTES + 4;

// Prints how many constructors each type has.
fn print_types(rt: &HostRuntime, table: &Table) -> Result<(), Trouble> {
    let types = table.layout().types;
    if let Some(sizes) = table.bytes().get(types.start..types.end) {
        for (number, size) in sizes.iter().enumerate() {
            let item = Size(*size);
            let listed = Listed { number, item };
            println!(rt; "{listed}")?;
        }
    }
    Ok(())
}

fn print_constructors(rt: &HostRuntime, table: &Table) -> Result<(), Trouble> {
    let shapes = table.shapes();
    for (number, item) in shapes.forms().iter().enumerate() {
        let listed = Listed {
            number,
            item: *item,
        };
        println!(rt; "{listed}")?;
    }
    Ok(())
}

// Functions and rows in a loop each: a function over the closure that asks is not yet proved where it holds a table's lifetime.
fn print_functions(rt: &HostRuntime, table: &Table) -> Result<(), Trouble> {
    let functions = table.functions();
    for number in 0..functions.len() {
        if let Some(item) = functions.get(number) {
            let listed = Listed { number, item };
            println!(rt; "{listed}")?;
        }
    }
    Ok(())
}

fn print_rows(rt: &HostRuntime, table: &Table) -> Result<(), Trouble> {
    let rows = table.rows();
    for number in 0..rows.len() {
        if let Some(item) = rows.get(number) {
            let listed = Listed { number, item };
            println!(rt; "{listed}")?;
        }
    }
    Ok(())
}

// Prints the sections of a table, record by record.
fn print_sections(rt: &HostRuntime, table: &Table) -> Result<(), Trouble> {
    let long = table.bytes().len();
    let layout = table.layout();
    let types = layout.types.count;
    let constructors = layout.constructors.count;
    let functions = layout.functions.count;
    let rows = layout.rows.count;
    println!(rt;
        "read a program of {types} types, {constructors} constructors, {functions} functions and {rows} rows from {long} bytes"
    )?;
    print_types(rt, table)?;
    print_constructors(rt, table)?;
    print_functions(rt, table)?;
    print_rows(rt, table)
}

// Prints what the check says of the bytes.
fn print_verdict(rt: &HostRuntime, tried: &str, bytes: &[u8]) -> Result<(), Trouble> {
    let mut checked = Checked::built_in();
    let verdict = Verdict::<ProgramWords>::new(tried, checked.check(bytes).err());
    println!(rt; "{verdict}")?;
    Ok(())
}

// A copy with another byte at one place.
#[derive(Clone, Copy)]
struct Change {
    tried: &'static str,
    at: usize,
    byte: u8,
}

// Prints what the check says of copies of the bytes, each with one change.
fn print_changes(rt: &HostRuntime, bytes: &[u8], changes: &[Change]) -> Result<(), Trouble> {
    for change in changes {
        let copy = with_byte(rt.alloc(), bytes, change.at, change.byte)?;
        print_verdict(rt, change.tried, &copy)?;
    }
    Ok(())
}

// Prints what becomes of copies that cannot be read.
fn print_unreadable(rt: &HostRuntime, bytes: &[u8], layout: &Layout) -> Result<(), Trouble> {
    let cut = &bytes[..bytes.len().saturating_sub(1)];
    print_verdict(rt, "cut by one byte", cut)?;
    let mut longer = bytes.to_vec(rt.alloc())?;
    longer.push(0)?;
    print_verdict(rt, "with one byte more", &longer)?;
    let rows = layout.rows.start;
    let changes = [
        Change {
            tried: "with a third constructor of type 0",
            at: layout.types.start,
            byte: 3,
        },
        Change {
            tried: "of edition 2",
            at: 0,
            byte: 2,
        },
        Change {
            tried: "with a row of kind 14",
            at: rows,
            byte: 14,
        },
        Change {
            tried: "with a body that starts a row too late",
            at: rows.saturating_add(FIRST_BODY),
            byte: 4,
        },
    ];
    print_changes(rt, bytes, &changes)
}

// Prints what becomes of copies that break a typing rule.
fn print_mistyped(rt: &HostRuntime, bytes: &[u8], layout: &Layout) -> Result<(), Trouble> {
    let rows = layout.rows.start;
    let changes = [
        Change {
            tried: "that gives a variable which nothing binds",
            at: rows.saturating_add(GIVEN_COUNT),
            byte: 9,
        },
        Change {
            tried: "that adds a list of folders to a count",
            at: rows.saturating_add(ADDED_ONE),
            byte: 1,
        },
        Change {
            tried: "with the later lines in place of the week's",
            at: rows.saturating_add(LINES_OF_THE_WEEK),
            byte: 6,
        },
    ];
    print_changes(rt, bytes, &changes)
}

// Checks a program's table and prints all of it, then the damaged copies.
pub fn print_program(rt: &HostRuntime, bytes: &[u8]) -> Result<(), Trouble> {
    let mut checked = Checked::built_in();
    checked.check(bytes)?;
    let table = checked.table();
    print_sections(rt, &table)?;
    print_verdict(rt, "the program", bytes)?;
    print_unreadable(rt, bytes, &table.layout())?;
    print_mistyped(rt, bytes, &table.layout())
}
