// A report as a program: of an office's list it makes the entries that can be brought back within the week, those that have
// longer, and how many are gone for good. It is written here as records and rows, and read from the bytes of its table.
ghost use Rattle.std.specs.Prelude.{◌≡◌, IfOk};
ghost use Rattle.table.specs.declared.row.Row.TheVariants as row;
ghost use Rattle.table.specs.Writing.{ReadsBack};
ghost use Rattle.report_program.specs.Written.{operand, program_sizes, program_fields, program_functions};

use crate::show::Trouble;
use packed::Fields;
use reporting::{
    END, ENTRIES, ENTRY, ENTRY_FIELDS, FOLDER, FOLDER_FIELDS, FOLDERS, GONE, GONE_FIELDS, INTEGER,
    KEPT, KEPT_FIELDS, NO_ENTRY, NO_FOLDER, NONE,
};
use std::alloc::{AllocError, Global};
use table::{Function, Row, write};

// Two types stand behind those of the list: a list of lines, and the report.
const LINES: u8 = 3;

const REPORT: u8 = 4;

// Their constructors.
const NO_LINE: u8 = 6;

const LINE: u8 = 7;

const WHOLE: u8 = 8;

// The bytes of a row, and of all that stands before the rows.
pub const ROW_BYTES: usize = 16;

const OTHER_BYTES: usize = 108;

// How many constructors each type has.
const SIZES: [u8; 5] = [2, 2, 2, 2, 1];

// In the order of the constructors' numbers.
const FIELDS: [Fields; 9] = [
    END,
    FOLDER_FIELDS,
    END,
    ENTRY_FIELDS,
    KEPT_FIELDS,
    GONE_FIELDS,
    END,
    // A line: the entry's id and the days left; the next line.
    Fields {
        integers: 2,
        subtrees: 1,
        types: [LINES, NONE, NONE, NONE],
    },
    // The report: how many are gone; the lines of the week, and the later ones.
    Fields {
        integers: 1,
        subtrees: 2,
        types: [LINES, LINES, NONE, NONE],
    },
];

// The functions' numbers. Main is function 0.
const KEPT_IN_FOLDERS: u8 = 1;

const KEPT_IN_ENTRIES: u8 = 2;

const GONE_IN_FOLDERS: u8 = 3;

const GONE_IN_ENTRIES: u8 = 4;

const FUNCTIONS: [Function; 5] = [
    // main(folders)
    Function {
        parameters: 1,
        kinds: [FOLDERS, NONE, NONE, NONE],
        result: REPORT,
        first: 0,
    },
    // lines of the kept entries with least to most days left: kept_in_folders(folders, least, most)
    Function {
        parameters: 3,
        kinds: [FOLDERS, INTEGER, INTEGER, NONE],
        result: LINES,
        first: 17,
    },
    // the same of the rest of a folder and the folders behind it: kept_in_entries(entries, folders, least, most)
    Function {
        parameters: 4,
        kinds: [ENTRIES, FOLDERS, INTEGER, INTEGER],
        result: LINES,
        first: 22,
    },
    // how many entries are gone: gone_in_folders(folders)
    Function {
        parameters: 1,
        kinds: [FOLDERS, NONE, NONE, NONE],
        result: INTEGER,
        first: 38,
    },
    // the same of the rest of a folder and the folders behind it: gone_in_entries(entries, folders)
    Function {
        parameters: 2,
        kinds: [ENTRIES, FOLDERS, NONE, NONE],
        result: INTEGER,
        first: 43,
    },
];

// The rows whose operands would take a line each, by their operands.

// The operand at i, or none behind the last.
fn operand_at(names: &[u8], i: usize) -> u8
    ensures value { result ≡ operand names.now i }
{
    names.get(i).copied().unwrap_or(NONE)
}

// A tree at l, from these variables, integers first.
fn construct(form: u8, l: u8, names: &[u8]) -> Row
    ensures value { result ≡ row.Construct form l (operand names.now 0) (operand names.now 1) (operand names.now 2) (operand names.now 3) (operand names.now 4) (operand names.now 5) (operand names.now 6) (operand names.now 7) }
{
    Row::Construct {
        form,
        l,
        v0: operand_at(names, 0),
        v1: operand_at(names, 1),
        v2: operand_at(names, 2),
        v3: operand_at(names, 3),
        v4: operand_at(names, 4),
        v5: operand_at(names, 5),
        v6: operand_at(names, 6),
        v7: operand_at(names, 7),
    }
}

// Binds an integer.
fn integer_let(x: u8, body: u16) -> Row
    ensures value { result ≡ row.Let x 254 255 body }
{
    Row::Let {
        x,
        kind: INTEGER,
        l: NONE,
        body,
    }
}

// Binds a tree at l.
fn tree_let(x: u8, kind: u8, l: u8, body: u16) -> Row
    ensures value { result ≡ row.Let x kind l body }
{
    Row::Let { x, kind, l, body }
}

// Function f of these variables; a tree goes to l.
fn call(f: u8, l: u8, names: &[u8]) -> Row
    ensures value { result ≡ row.Call f l (operand names.now 0) (operand names.now 1) (operand names.now 2) (operand names.now 3) }
{
    Row::Call {
        f,
        l,
        v0: operand_at(names, 0),
        v1: operand_at(names, 1),
        v2: operand_at(names, 2),
        v3: operand_at(names, 3),
    }
}

// For a tree of this constructor; the next branch is row `next`.
fn branch(form: u8, x0: u8, l0: u8, next: u16) -> Row
    ensures value { result ≡ row.Branch form x0 l0 next }
{
    Row::Branch { form, x0, l0, next }
}

// Main: variable 0 is the folders.
fn main_rows() -> [Row; 17] {
    [
        // The lines of the week, 0 to 7 days, lie behind the report's head, at location 2.
        Row::Past { l: 2, m: 0, k: 1 },
        integer_let(1, 3),
        Row::Number { value: 0 },
        integer_let(2, 5),
        Row::Number { value: 7 },
        tree_let(3, LINES, 2, 7),
        call(KEPT_IN_FOLDERS, 2, &[0, 1, 2]),
        // The later ones, 8 to 30 days, lie behind them, at location 3.
        Row::After {
            l: 3,
            m: 2,
            t: LINES,
        },
        integer_let(4, 10),
        Row::Number { value: 8 },
        integer_let(5, 12),
        Row::Number { value: 30 },
        tree_let(6, LINES, 3, 14),
        call(KEPT_IN_FOLDERS, 3, &[0, 4, 5]),
        // How many are gone, and the report's head.
        integer_let(7, 16),
        call(GONE_IN_FOLDERS, NONE, &[0]),
        construct(WHOLE, 0, &[7, 3, 6]),
    ]
}

// Lines of folders, from row 17: variable 0 is the folders, 1 and 2 are the least and the most days left.
fn folder_rows() -> [Row; 5] {
    [
        Row::Case { x: 0 },
        branch(NO_FOLDER, 0, 0, 20),
        construct(NO_LINE, 0, &[]),
        // A folder: 3 its id, 4 its entries, 5 the folders behind it.
        branch(FOLDER, 3, 2, 0),
        call(KEPT_IN_ENTRIES, 0, &[4, 5, 1, 2]),
    ]
}

// Lines of entries, from row 22: variable 0 is the entries, 1 the folders, 2 and 3 are the least and the most days left.
fn entry_rows() -> [Row; 16] {
    [
        Row::Case { x: 0 },
        branch(NO_ENTRY, 0, 0, 25),
        call(KEPT_IN_FOLDERS, 0, &[1, 2, 3]),
        // An entry: 4 its id, 5 its age, 6 the entries behind it.
        branch(ENTRY, 4, 3, 0),
        Row::Case { x: 5 },
        // Its age: 7 the days since, 8 the days left.
        branch(KEPT, 7, 0, 36),
        Row::Test {
            x: 2,
            y: 8,
            other: 35,
        },
        Row::Test {
            x: 8,
            y: 3,
            other: 34,
        },
        // The line of this entry, with the lines of the rest behind its head.
        Row::Past { l: 5, m: 0, k: 2 },
        tree_let(9, LINES, 5, 33),
        call(KEPT_IN_ENTRIES, 5, &[6, 1, 2, 3]),
        construct(LINE, 0, &[4, 8, 9]),
        // Too many days left, too few, and gone: only the lines of the rest.
        call(KEPT_IN_ENTRIES, 0, &[6, 1, 2, 3]),
        call(KEPT_IN_ENTRIES, 0, &[6, 1, 2, 3]),
        branch(GONE, 7, 0, 0),
        call(KEPT_IN_ENTRIES, 0, &[6, 1, 2, 3]),
    ]
}

// How many are gone in folders, from row 38: variable 0 is the folders.
fn gone_folder_rows() -> [Row; 5] {
    [
        Row::Case { x: 0 },
        branch(NO_FOLDER, 0, 0, 41),
        Row::Number { value: 0 },
        branch(FOLDER, 1, 2, 0),
        call(GONE_IN_ENTRIES, NONE, &[2, 3]),
    ]
}

// How many are gone in entries, from row 43: variable 0 is the entries, 1 the folders.
fn gone_entry_rows() -> [Row; 13] {
    [
        Row::Case { x: 0 },
        branch(NO_ENTRY, 0, 0, 46),
        call(GONE_IN_FOLDERS, NONE, &[1]),
        // An entry: 5 is how many are gone behind it.
        branch(ENTRY, 2, 3, 0),
        integer_let(5, 49),
        call(GONE_IN_ENTRIES, NONE, &[4, 1]),
        Row::Case { x: 3 },
        branch(KEPT, 6, 0, 52),
        Row::Variable { x: 5 },
        // Gone: one more.
        branch(GONE, 6, 0, 0),
        integer_let(7, 55),
        Row::Number { value: 1 },
        Row::Sum { x: 5, y: 7 },
    ]
}

// The rows of all functions, one function behind the other. One call each: the arrays are of five lengths.
pub fn program_rows(heap: Global) -> Result<Vec<Row>, AllocError> {
    let mut rows = Vec::new(heap);
    rows.extend_from_slice(&main_rows())?;
    rows.extend_from_slice(&folder_rows())?;
    rows.extend_from_slice(&entry_rows())?;
    rows.extend_from_slice(&gone_folder_rows())?;
    rows.extend_from_slice(&gone_entry_rows())?;
    Ok(rows)
}

// The bytes of the program, whose functions have these rows.
pub fn program_bytes(heap: Global, rows: &[Row]) -> Result<Vec<u8>, Trouble>
    ensures back { IfOk result (λ v. ReadsBack program_sizes program_fields program_functions rows.now v.items) }
{
    let room = rows
        .len()
        .saturating_mul(ROW_BYTES)
        .saturating_add(OTHER_BYTES);
    let mut bytes = vec![in heap; 0; room]?;
    let long = write(&SIZES, &FIELDS, &FUNCTIONS, rows, bytes.as_mut_slice())?;
    bytes.truncate(long);
    Ok(bytes)
}
