// A program's sections and rows in words.
ghost use Rattle.std.specs.Prelude.{◌≡◌};
ghost use Rattle.report_program.specs.Written.{names_of};

use packed::Constructor;
use reporting::{INTEGER, Many, NONE};
use std::fmt;
use std::marker::PhantomData;
use table::{Function, Row};

// A number of things with their noun, which may be none.
#[derive(Clone, Copy)]
struct ManyOrNo<'a>(Many<'a>);

impl<'a> fmt::Display for ManyOrNo<'a> {
    fn fmt<W: fmt::Write>(&self, f: &mut fmt::Formatter<W>) -> fmt::Result {
        let many = self.0;
        let noun = many.noun;
        match many.count {
            0 => write!(f, "no {noun}"),
            _ => write!(f, "{many}"),
        }
    }
}

// So many integers.
fn integers(count: u8) -> ManyOrNo<'static> {
    ManyOrNo(Many {
        count: i64::from(count),
        noun: "integer",
    })
}

// A kind of value, by its number.
#[derive(Clone, Copy)]
struct Kind(u8);

impl From<u8> for Kind {
    fn from(number: u8) -> Kind {
        Kind(number)
    }
}

impl fmt::Display for Kind {
    fn fmt<W: fmt::Write>(&self, f: &mut fmt::Formatter<W>) -> fmt::Result {
        match self.0 {
            INTEGER => write!(f, "an integer"),
            number => write!(f, "type {number}"),
        }
    }
}

// A variable, by its number.
#[derive(Clone, Copy)]
struct Variable(u8);

impl From<u8> for Variable {
    fn from(number: u8) -> Variable {
        Variable(number)
    }
}

impl fmt::Display for Variable {
    fn fmt<W: fmt::Write>(&self, f: &mut fmt::Formatter<W>) -> fmt::Result {
        let number = self.0;
        write!(f, "variable {number}")
    }
}

// Numbers up to the first that is none, each shown as a T, with a word before the first.
#[derive(Clone, Copy)]
struct Series<T, const N: usize> {
    first: &'static str,
    numbers: [u8; N],
    shown_as: PhantomData<T>,
}

impl<T: fmt::Display + From<u8> + Drop, const N: usize> fmt::Display for Series<T, N> {
    fn fmt<W: fmt::Write>(&self, f: &mut fmt::Formatter<W>) -> fmt::Result {
        let mut before = self.first;
        // No take_while: in a loop over it, it is not proved that the bytes of `before` are UTF-8.
        for number in &self.numbers {
            if *number == NONE {
                break;
            }
            let shown = T::from(*number);
            write!(f, "{before}{shown}")?;
            before = ", ";
        }
        Ok(())
    }
}

fn kinds(numbers: [u8; 4]) -> Series<Kind, 4> {
    Series {
        first: "",
        numbers,
        shown_as: PhantomData,
    }
}

// How many constructors a type has.
#[derive(Clone, Copy)]
pub struct Size(pub u8);

// A type's size, a constructor, a function or a row, with its number.
#[derive(Clone, Copy)]
pub struct Listed<T> {
    pub number: usize,
    pub item: T,
}

impl fmt::Display for Listed<Size> {
    fn fmt<W: fmt::Write>(&self, f: &mut fmt::Formatter<W>) -> fmt::Result {
        let number = self.number;
        let forms = ManyOrNo(Many {
            count: i64::from(self.item.0),
            noun: "constructor",
        });
        write!(f, "type {number}: {forms}")
    }
}

impl fmt::Display for Listed<Constructor> {
    fn fmt<W: fmt::Write>(&self, f: &mut fmt::Formatter<W>) -> fmt::Result {
        let number = self.number;
        let Constructor { of, fields } = self.item;
        let integers = integers(fields.integers);
        write!(f, "constructor {number}, of type {of}: {integers}")?;
        if fields.subtrees == 0 {
            return write!(f, ", no subtree");
        }
        let kinds = kinds(fields.types);
        write!(f, ", subtrees of {kinds}")
    }
}

impl fmt::Display for Listed<Function> {
    fn fmt<W: fmt::Write>(&self, f: &mut fmt::Formatter<W>) -> fmt::Result {
        let number = self.number;
        write!(f, "function {number}: ")?;
        if self.item.parameters != 0 {
            let takes = kinds(self.item.kinds);
            write!(f, "takes {takes}, ")?;
        }
        let gives = Kind(self.item.result);
        let first = self.item.first;
        write!(f, "gives {gives}, from row {first} on")
    }
}

// The variables that a row uses in order: those of a construct or of a call.
fn used_by(row: Row) -> Series<Variable, 8>
    ensures value { result.numbers ≡ names_of row }
{
    let numbers = match row {
        Row::Construct {
            v0,
            v1,
            v2,
            v3,
            v4,
            v5,
            v6,
            v7,
            ..
        } => [v0, v1, v2, v3, v4, v5, v6, v7],
        Row::Call { v0, v1, v2, v3, .. } => [v0, v1, v2, v3, NONE, NONE, NONE, NONE],
        _ => [NONE; 8],
    };
    Series {
        first: " of ",
        numbers,
        shown_as: PhantomData,
    }
}

// A row that opens a region or names a location.
fn write_naming<W: fmt::Write>(row: Row, f: &mut fmt::Formatter<W>) -> fmt::Result {
    match row {
        Row::Region { r, room } => write!(f, "opens region {r} with {room} cells"),
        Row::Start { l, r } => write!(f, "location {l} is the start of region {r}"),
        Row::Past { l, m, k } => {
            let integers = integers(k);
            write!(
                f,
                "location {l} is past a head with {integers} at location {m}"
            )
        }
        Row::After { l, m, t } => {
            write!(
                f,
                "location {l} is after the tree of type {t} at location {m}"
            )
        }
        _ => Ok(()),
    }
}

// A row that has a location or another row in one form, and none in another.
// (NONE, and 0 for no row, as the row has them.)
fn write_choosing<W: fmt::Write>(row: Row, f: &mut fmt::Formatter<W>) -> fmt::Result {
    match row {
        Row::Let { x, kind, l, body } => {
            let bound = Kind(kind);
            if kind == INTEGER {
                write!(f, "binds variable {x} to {bound}, then row {body}")
            } else {
                write!(
                    f,
                    "binds variable {x} to {bound} at location {l}, then row {body}"
                )
            }
        }
        Row::Call { f: callee, l, .. } => {
            let used = used_by(row);
            if l == NONE {
                write!(f, "calls function {callee}{used}")
            } else {
                write!(f, "calls function {callee}{used} for location {l}")
            }
        }
        Row::Branch { form, x0, l0, next } => {
            write!(
                f,
                "for constructor {form} binds variables from {x0} and locations from {l0} on"
            )?;
            if next == 0 {
                write!(f, ", as the last")
            } else {
                write!(f, ", the next is row {next}")
            }
        }
        _ => Ok(()),
    }
}

impl fmt::Display for Listed<Row> {
    fn fmt<W: fmt::Write>(&self, f: &mut fmt::Formatter<W>) -> fmt::Result {
        let number = self.number;
        let row = self.item;
        write!(f, "row {number}: ")?;
        match row {
            Row::Variable { x } => write!(f, "gives variable {x}"),
            Row::Number { value } => write!(f, "gives {value}"),
            Row::Sum { x, y } => write!(f, "gives variable {x} plus variable {y}"),
            Row::Difference { x, y } => write!(f, "gives variable {x} minus variable {y}"),
            Row::Region { .. } | Row::Start { .. } | Row::Past { .. } | Row::After { .. } => {
                write_naming(row, f)
            }
            Row::Construct { form, l, .. } => {
                let used = used_by(row);
                write!(f, "constructs {form} at location {l}{used}")
            }
            Row::Test { x, y, other } => write!(
                f,
                "goes on where variable {x} is at most variable {y}, else to row {other}"
            ),
            Row::Case { x } => write!(f, "takes variable {x} apart"),
            Row::Let { .. } | Row::Call { .. } | Row::Branch { .. } => write_choosing(row, f),
        }
    }
}
