// A table as a client holds it: the built-in one at first, then the last one that was read; and what it answers.
ghost use Rattle.std.specs.Prelude.{◌≡◌, ℕ, true, is_ok, if◌then◌else◌, Some, Ok, Err};
ghost use Rattle.std.specs.List.{slice_get};
ghost use Rattle.packed.specs.Forms.{numbered};
ghost use Rattle.packed.specs.Shaped.{forms_of, sizes_of};
ghost use Rattle.table.specs.Enclosing.{BranchOf, TakerAt};
ghost use Rattle.table.specs.Formed.{Formed};
ghost use Rattle.table.specs.Held.{functions_of, rows_of};
ghost use Rattle.table.specs.Linked.{case_in, taker_in};
ghost use Rattle.table.specs.Links.{case_for, taker_for};
ghost use Rattle.table.specs.Order.{is_branch};
ghost use Rattle.table.specs.Table.{constructors_in, functions_in, rows_in, sizes_in, table_of, told};
ghost use Rattle.table.specs.Tabled.{built_in, bytes_of};

use super::Table;
use crate::functions::Functions;
use crate::links::Links;
use crate::reading::{NO_FIELDS, parts};
use crate::row::Row;
use crate::rows::Rows;
use crate::section::{Layout, Section};
use crate::sections::Sections;
use packed::{Fault, Shapes};

// The least table: main gives the number 0.
static BUILT_IN: [u8; 40] = [
    // the edition
    1,
    // one type, of one constructor
    1, 0, 1,
    // the constructor, which holds nothing
    1, 0, 0, 0, 255, 255, 255, 255,
    // main, which has no parameter, gives an integer and starts at row 0
    1, 0, 0, 255, 255, 255, 255, 254, 0, 0,
    // its row
    1, 0, 1, 0, 0, 0, 0, 0, 0, 0, 0, 0, 0, 0, 0, 0, 0, 0,
];

const BUILT_IN_LAYOUT: Layout = Layout {
    types: Section {
        start: 3,
        count: 1,
        end: 4,
    },
    constructors: Section {
        start: 6,
        count: 1,
        end: 12,
    },
    functions: Section {
        start: 14,
        count: 1,
        end: 22,
    },
    rows: Section {
        start: 24,
        count: 1,
        end: 40,
    },
};

impl<'a> Table<'a> {
    // The built-in table, for a client to hold until it reads one.
    pub fn built_in() -> Table<'a>
        ensures value { bytes_of result ≡ built_in }
        ensures formed { Formed built_in result.layout }
    {
        let Ok(shapes) = Shapes::new(&[1], &[NO_FIELDS]) else {
            unreachable();
        };
        Table {
            bytes: &BUILT_IN,
            layout: BUILT_IN_LAYOUT,
            shapes,
        }
    }

    // Reads a table and holds it from now on; or refuses it with its first fault, and still holds what it held.
    pub fn read(&mut self, bytes: &'a [u8]) -> Result<(), Fault>
        ensures value { result ≡ told (table_of bytes.now) }
        ensures after { bytes_of self.new ≡ (if is_ok (table_of bytes.now) then bytes.now else bytes_of self.old) }
        ensures same { (f : Fault) → result ≡ Err f → self.new ≡ self.old }
    {
        let parts = parts(bytes)?;
        *self = Table {
            bytes,
            layout: parts.layout,
            shapes: parts.shapes,
        };
        Ok(())
    }

    // The bytes that are the table.
    pub fn bytes(&self) -> &'a [u8]
        ensures value { result.now ≡ bytes_of self.now }
    {
        self.bytes
    }

    // Where its sections lie; and that the bytes are a table with its sections there.
    pub fn layout(&self) -> Layout
        ensures value { result ≡ self.now.layout }
        ensures read { table_of (bytes_of self.now) ≡ Ok result }
        ensures formed { Formed (bytes_of self.now) result }
    {
        self.layout
    }

    // The shapes of its types and constructors.
    pub fn shapes(&self) -> Shapes
        ensures types { result.types ≡ self.now.layout.types.count }
        ensures sizes { sizes_of result ≡ sizes_in (bytes_of self.now) self.now.layout }
        ensures forms { forms_of result ≡ numbered 0 (sizes_in (bytes_of self.now) self.now.layout) (constructors_in (bytes_of self.now) self.now.layout) }
    {
        self.shapes
    }

    // What stands in its sections.
    fn sections(&self) -> Sections<'a>
        ensures bytes { result.bytes.now ≡ bytes_of self.now }
        ensures layout { result.layout ≡ self.now.layout }
    {
        Sections {
            bytes: self.bytes,
            layout: self.layout,
        }
    }

    // Its functions.
    pub fn functions(&self) -> Functions<'a>
        ensures value { functions_of result ≡ functions_in (bytes_of self.now) self.now.layout }
    {
        self.sections().functions()
    }

    // Its rows.
    pub fn rows(&self) -> Rows<'a>
        ensures value { rows_of result ≡ rows_in (bytes_of self.now) self.now.layout }
    {
        self.sections().rows()
    }

    // For each row its taker, and for each branch its case: what encloses them, by the spans of rows.
    pub fn links(&self) -> Links
        ensures takers { (n : ℕ) → taker_in result n ≡ taker_for (rows_in (bytes_of self.now) self.now.layout) n }
        ensures cases { (n : ℕ) → case_in result n ≡ case_for (rows_in (bytes_of self.now) self.now.layout) n }
        ensures taken { (n m : ℕ) → (taker_in result n ≡ Some m → TakerAt (rows_in (bytes_of self.now) self.now.layout) m n) × (TakerAt (rows_in (bytes_of self.now) self.now.layout) m n → taker_in result n ≡ Some m) }
        ensures cased { (b c : ℕ) → (case_in result b ≡ Some c → BranchOf (rows_in (bytes_of self.now) self.now.layout) c b) × (BranchOf (rows_in (bytes_of self.now) self.now.layout) c b → case_in result b ≡ Some c) }
        ensures branches { (b : ℕ) (row : Row) → slice_get (rows_in (bytes_of self.now) self.now.layout) b ≡ Some row → is_branch row ≡ true → (c : ℕ) × (case_in result b ≡ Some c) }
    {
        Links::new(&self.rows())
    }
}
