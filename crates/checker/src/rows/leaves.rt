// Rows without children.
ghost use Rattle.table.specs.declared.row.Row.TheVariants as row;
ghost use Rattle.checker.specs.Described.{program_of};
ghost use Rattle.checker.specs.Giving.{Gives, GivesRow};
ghost use Rattle.checker.specs.Verdict.{constructing, calling};

use crate::context::Context;
use crate::descent::RowAt;
use crate::kind::{INTEGER, Kind};
use packed::{Fault, Reason};

impl<'a> RowAt<'a> {
    pub fn variable_row(&self, x: u8, cx: &Context) -> Result<Kind, Fault>
        ensures gives { GivesRow self.now (row.Variable x) cx.now result cx.now }
    {
        cx.variable(x).ok_or(self.fault(Reason::Scope))
    }

    // A sum, and likewise a difference.
    pub fn sum_row(&self, x: u8, y: u8, cx: &Context) -> Result<Kind, Fault>
        ensures gives { GivesRow self.now (row.Sum x y) cx.now result cx.now }
    {
        self.ask_integers(x, y, cx)?;
        Ok(Kind::Integer)
    }

    pub fn construct_row(
        &self,
        form: u8,
        l: u8,
        variables: &[u8; 8],
        cx: &mut Context,
    ) -> Result<Kind, Fault>
        ensures gives { Gives result cx.new (constructing (program_of self.now.program.now) self.now.at form l variables.now cx.old) }
    {
        let to = u16::from(l);
        let f = self.ask_construct(form, to, variables, cx)?;
        cx.write(to);
        Ok(Kind::Tree { of: f.of, at: to })
    }

    pub fn call_row(
        &self,
        g: u8,
        l: u8,
        variables: &[u8; 4],
        cx: &mut Context,
    ) -> Result<Kind, Fault>
        ensures gives { Gives result cx.new (calling (program_of self.now.program.now) self.now.at g l variables.now cx.old) }
    {
        let to = u16::from(l);
        let f = self.ask_call(g, to, variables, cx)?;
        if f.result != INTEGER {
            cx.write(to);
        }
        Ok(Kind::of(f.result, to))
    }

    // A branch that no case has.
    pub fn stray_branch(&self, form: u8, x: u8, l: u8, cx: &Context) -> Result<Kind, Fault>
        ensures gives { GivesRow self.now (row.Branch form x l 0) cx.now result cx.now }
    {
        self.ask_branch(form, x, l, cx)?;
        Err(self.fault(Reason::RowOrder))
    }
}
