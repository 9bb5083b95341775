// Reading a table: layer 1, then the meaning of numbers, then the order of rows.
ghost use Rattle.std.specs.Prelude.{◌≡◌, ◌+◌, ◌*◌, ◌^◌, ◌<◌, ◌≤◌, map, length, take, IfOk, Ok, Err};
ghost use Rattle.packed.specs.declared.fault.Reason.TheVariants as reason;
ghost use Rattle.table.specs.Held.{functions_of, rows_of};
ghost use Rattle.table.specs.Order.{bodies, disorder};
ghost use Rattle.packed.specs.Faults.{found};
ghost use Rattle.packed.specs.Forms.{either, limit_of, numbered};
ghost use Rattle.packed.specs.Shaped.{forms_of, sizes_of};
ghost use Rattle.table.specs.Meaning.{records_from, fields_of, first_unfair};
ghost use Rattle.table.specs.Table.{constructors_in, fair_function_at, fair_row_at, limit_fault, meaning_of, sizes_in, Small, table_of, told};
ghost use Rattle.table.specs.Tabled.{laid_out};
ghost use Rattle.table.specs.Formed.{Formed};
ghost use Rattle.table.specs.First.{First};

use crate::functions::Functions;
use crate::judge::all_fair;
use crate::layout::layout;
use crate::meaning::{Referents, is_fair_function};
use crate::order::out_of_order;
use crate::parts::Parts;
use crate::records::Records;
use crate::rows::Rows;
use crate::section::Layout;
use crate::sections::Sections;
use packed::{Fault, Fields, Limit, Reason, Shapes};
use std::array;

// What fills the places behind the last constructor.
pub const NO_FIELDS: Fields = Fields {
    integers: 0,
    subtrees: 0,
    types: [255; 4],
};

// The fields of the constructors, in an array that has room for all: there is no heap here.
fn all_fields(constructors: &Records<Fields>) -> [Fields; 64]
    requires few { constructors.now.count ≤ 64 }
    ensures room { length result ≡ 64 }
    ensures front { take constructors.now.count result ≡ records_from 6 fields_of constructors.now.count constructors.now.bytes.now }
{
    array::from_fn(|i| constructors.get(i).unwrap_or(NO_FIELDS))
}

// The first rows of the functions, in an array that has room for all, likewise.
fn first_rows(functions: &Functions) -> [u16; 32]
    ensures room { length result ≡ 32 }
    ensures front { take (length (functions_of functions.now)) result ≡ map (λ f. f.first) (functions_of functions.now) }
{
    array::from_fn(|f| functions.get(f).map_or(0, |function| function.first))
}

impl<'a> Sections<'a> {
    // A broken limit of types or constructors, as a fault at its place.
    fn limit_fault(&self, limit: Limit) -> Fault
        requires { Small limit }
        ensures value { result ≡ limit_fault self.now.layout limit }
    {
        let types = self.layout.types.start;
        let constructors = self.layout.constructors.start;
        match limit {
            Limit::TypeCount => Fault::new(Reason::Count, 1, types - 2),
            Limit::TypeSize { of } => Fault::new(Reason::Meaning, 2, types + of),
            Limit::ConstructorCount => Fault::new(Reason::Count, 1, constructors - 2),
            Limit::Constructor { number } => {
                Fault::new(Reason::Meaning, 2, constructors + number * 6)
            }
        }
    }

    // The shapes of the types, or the first limit that they break.
    // (Each contract on the way says that shapes are those of the bytes: no struct holds both before a Table, filled last.)
    fn shapes(&self) -> Result<Shapes, Fault>
        ensures value { told result ≡ either (limit_of (sizes_in self.now.bytes.now self.now.layout) (constructors_in self.now.bytes.now self.now.layout)) (Ok tt) (λ b. Err (limit_fault self.now.layout b)) }
        ensures made { IfOk result (λ s. (sizes_of s ≡ sizes_in self.now.bytes.now self.now.layout) × (forms_of s ≡ numbered 0 (sizes_in self.now.bytes.now self.now.layout) (constructors_in self.now.bytes.now self.now.layout))) }
    {
        let constructors = self.constructors();
        let fields = all_fields(&constructors);
        let fault = |limit| -> Fault
            requires { Small limit }
            ensures { result ≡ limit_fault self.entry.now.layout limit }
        { self.limit_fault(limit) };
        Shapes::new(self.types(), &fields[..constructors.len()]).map_err(fault)
    }

    // Whether every number of every function has a meaning.
    fn check_functions(&self) -> Result<(), Fault>
        ensures value { result ≡ first_unfair (fair_function_at self.now.bytes.now self.now.layout) self.now.layout.functions.start 8 0 self.now.layout.functions.count }
    {
        let types = self.layout.types.count;
        let is_fair = |i, function| is_fair_function(types, i, &function);
        all_fair(
            &self.function_records(),
            self.layout.functions.start,
            is_fair,
        )
    }

    // Whether every number of every row has a meaning.
    fn check_rows(&self, shapes: Shapes) -> Result<(), Fault>
        requires sizes { sizes_of shapes ≡ sizes_in self.now.bytes.now self.now.layout }
        requires forms { forms_of shapes ≡ numbered 0 (sizes_in self.now.bytes.now self.now.layout) (constructors_in self.now.bytes.now self.now.layout) }
        ensures value { result ≡ first_unfair (fair_row_at self.now.bytes.now self.now.layout) self.now.layout.rows.start 16 0 self.now.layout.rows.count }
    {
        let functions = self.functions();
        let referents = Referents { shapes, functions };
        let is_fair = |_, row| referents.is_fair_row(&row);
        all_fair(&self.row_records(), self.layout.rows.start, is_fair)
    }

    // Layer 2, first part: the edition, types, constructors, functions and rows, in the order of their places.
    fn meaning(&self) -> Result<Shapes, Fault>
        ensures value { told result ≡ meaning_of self.now.bytes.now self.now.layout }
        ensures made { IfOk result (λ s. (sizes_of s ≡ sizes_in self.now.bytes.now self.now.layout) × (forms_of s ≡ numbered 0 (sizes_in self.now.bytes.now self.now.layout) (constructors_in self.now.bytes.now self.now.layout))) }
    {
        Fault::unless(self.bytes[0] == 1, Reason::Meaning, 2, 0)?;
        let shapes = self.shapes()?;
        self.check_functions()?;
        self.check_rows(shapes)?;
        Ok(shapes)
    }
}

// Layer 2, second part: rows and first rows in order.
fn ordered(rows: &Rows, functions: &Functions, start: usize) -> Result<(), Fault>
    requires { start < 2 ^ 63 }
    ensures value { result ≡ either (disorder (bodies (map (λ f. f.first) (functions_of functions.now))) (rows_of rows.now) 0) (Ok tt) (λ n. Err (found reason.RowOrder 2 (start + n * 16))) }
{
    let firsts = first_rows(functions);
    match out_of_order(rows, &firsts[..functions.len()]) {
        Some(n) => Err(Fault::new(Reason::RowOrder, 2, start + n * 16)),
        None => Ok(()),
    }
}

// Layer 1, then layer 2: the sections and the shapes of a table, or its first fault.
pub fn parts(bytes: &[u8]) -> Result<Parts, Fault>
    ensures value { laid_out result ≡ table_of bytes.now }
    ensures made { IfOk result (λ p. (sizes_of p.shapes ≡ sizes_in bytes.now p.layout) × (forms_of p.shapes ≡ numbered 0 (sizes_in bytes.now p.layout) (constructors_in bytes.now p.layout))) }
{
    let layout = layout(bytes)?;
    let sections = Sections { bytes, layout };
    let shapes = sections.meaning()?;
    ordered(&sections.rows(), &sections.functions(), layout.rows.start)?;
    Ok(Parts { layout, shapes })
}

// Reads a table: where its sections lie, or its first fault, of layer 1 or layer 2.
pub fn read(bytes: &[u8]) -> Result<Layout, Fault>
    ensures value { result ≡ table_of bytes.now }
    ensures formed { ((l : Layout) → result ≡ Ok l → Formed bytes.now l) × ((l : Layout) → Formed bytes.now l → result ≡ Ok l) }
    ensures first { (f : Fault) → result ≡ Err f → First bytes.now f }
    ensures only { (f : Fault) → First bytes.now f → result ≡ Err f }
{
    Ok(parts(bytes)?.layout)
}
