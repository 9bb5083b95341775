// What the check descends over: a program's constructors, functions and rows; and a row of them, where it stands.
ghost use Rattle.std.specs.Prelude.{◌≡◌, ◌<◌, length};
ghost use Rattle.table.specs.Held.{rows_of};
ghost use Rattle.table.specs.Tabled.{bytes_of};
ghost use Rattle.packed.specs.Faults.{found};
ghost use Rattle.checker.specs.Checking.{program_in};
ghost use Rattle.checker.specs.Described.{program_of};
ghost use Rattle.checker.specs.Verdict.{asking};

use crate::fault;
use packed::{Fault, Reason, Shapes};
use table::{Functions, Rows, Table};

#[derive(Clone, Copy)]
pub struct Descent<'a> {
    pub shapes: Shapes,
    pub functions: Functions<'a>,
    pub rows: Rows<'a>,
}

impl<'a, 'b> From<&'b Table<'a>> for Descent<'a> {
    ghost from_gives = { λ table program. program_of program ≡ program_in (bytes_of table.now) table.now.layout };

    // The program of a table.
    fn from(table: &'b Table<'a>) -> Descent<'a> {
        Descent {
            shapes: table.shapes(),
            functions: table.functions(),
            rows: table.rows(),
        }
    }
}

// The row numbered `at` of a program, which has it.
#[derive(Clone, Copy)]
pub struct RowAt<'a> {
    pub program: &'a Descent<'a>,
    pub at: usize,
    ghost inside: { at < length (rows_of program.now.rows) },
    ghost small: { at < 1024 },
}

impl<'a> RowAt<'a> {
    // A fault at this row.
    pub fn fault(&self, reason: Reason) -> Fault
        ensures value { result ≡ found reason 3 self.now.at }
    {
        fault::fault(reason, self.at)
    }

    // Nothing where a condition holds, or else a fault at this row.
    pub fn ask(&self, condition: bool, reason: Reason) -> Result<(), Fault>
        ensures value { result ≡ asking condition reason self.now.at }
    {
        fault::ask(condition, reason, self.at)
    }
}
