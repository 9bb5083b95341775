// The descent over rows: functions that call each other, rows left falling. Each row has its own conditions first. An
// operand that nothing below looks at is no argument, and 0 in the contract.
mod arm;
mod branches;
mod leaves;

ghost use Rattle.std.specs.Prelude.{◌≡◌, ℕ, ◌+◌, ◌≤◌, length};
ghost use Rattle.packed.specs.declared.fault.Reason.TheVariants as reason;
ghost use Rattle.table.specs.Held.{rows_of};
ghost use Rattle.table.specs.declared.row.Row.TheVariants as row;
ghost use Rattle.checker.specs.Described.{program_of};
ghost use Rattle.checker.specs.Giving.{Gives, GivesRow};
ghost use Rattle.checker.specs.Verdict.{asking, alike, term_of, locating, further};

use crate::context::{Context, Location, Progress, Rule};
use crate::descent::{Descent, RowAt};
use crate::fault::fault;
use crate::kind::Kind;
use branches::Case;
use packed::{Fault, Reason};
use table::Row;

impl<'a> Descent<'a> {
    // Row `at` and what hangs on it.
    #[cycle(descend)]
    pub fn term(&self, at: usize, cx: &mut Context) -> Result<Kind, Fault>
        ensures gives { (f : ℕ) → length (rows_of self.now.rows) ≤ at + f → Gives result cx.new (term_of (program_of self.now) f at cx.old) }
    {
        let Some(row) = self.rows.get(at) else {
            return Err(fault(Reason::RowOrder, at));
        };
        RowAt {
            program: &*self,
            at,
        }
        .row(row, cx)
    }
}

impl<'a> RowAt<'a> {
    // Arms end alike: one gave `kind` and wrote as far as `end`, the one behind it gave `other`.
    fn ask_alike(&self, kind: Kind, end: &Progress, other: Kind, cx: &Context) -> Result<(), Fault>
        ensures value { result ≡ asking (alike kind end.now other cx.now.progress) reason.ArmsDiffer self.now.at }
    {
        let alike = (kind == other) & (*end == cx.progress);
        self.ask(alike, Reason::ArmsDiffer)
    }

    // This row and what hangs on it, by its kind.
    #[cycle(descend)]
    fn row(&self, row: Row, cx: &mut Context) -> Result<Kind, Fault>
        ensures gives { GivesRow self.now row cx.old result cx.new }
    {
        match row {
            Row::Variable { x } => self.variable_row(x, cx),
            Row::Number { .. } => Ok(Kind::Integer),
            Row::Sum { x, y } | Row::Difference { x, y } => self.sum_row(x, y, cx),
            Row::Region { r, .. } => self.region_row(r, cx),
            Row::Start { l, r } => self.start_row(l, r, cx),
            Row::Past { l, m, k } => self.past_row(l, m, k, cx),
            Row::After { l, m, t } => self.after_row(l, m, t, cx),
            Row::Construct {
                form,
                l,
                v0,
                v1,
                v2,
                v3,
                v4,
                v5,
                v6,
                v7,
            } => self.construct_row(form, l, &[v0, v1, v2, v3, v4, v5, v6, v7], cx),
            Row::Let { x, kind, l, body } => self.let_row(x, kind, l, body, cx),
            Row::Test { x, y, other } => self.test_row(x, y, other, cx),
            Row::Call {
                f,
                l,
                v0,
                v1,
                v2,
                v3,
            } => self.call_row(f, l, &[v0, v1, v2, v3], cx),
            Row::Case { x } => self.case_row(x, cx),
            Row::Branch { form, x0, l0, .. } => self.stray_branch(form, x0, l0, cx),
        }
    }

    #[cycle(descend)]
    fn region_row(&self, r: u8, cx: &mut Context) -> Result<Kind, Fault>
        ensures gives { GivesRow self.now (row.Region r 0) cx.old result cx.new }
    {
        self.ask_region(r, cx)?;
        cx.open(r);
        let kind = self.program.term(self.at + 1, cx)?;
        cx.close(r);
        Ok(kind)
    }

    // The child of a row that brings location l into scope.
    #[cycle(descend)]
    fn locate(&self, l: u8, region: Option<u8>, rule: Rule, cx: &mut Context) -> Result<Kind, Fault>
        ensures gives { (f : ℕ) → length (rows_of self.now.program.now.rows) ≤ self.now.at + 1 + f → Gives result cx.new (locating (program_of self.now.program.now) (term_of (program_of self.now.program.now) f) self.now.at l (record { region = region; rule = rule }) cx.old) }
    {
        let new = u16::from(l);
        cx.place(new, Location { region, rule });
        let kind = self.program.term(self.at + 1, cx)?;
        let settled = !cx.progress.is_unwritten(new) & !kind.lies_within(new, 1);
        self.ask(settled, Reason::ChildLeft)?;
        cx.leave(new);
        Ok(kind)
    }

    #[cycle(descend)]
    fn start_row(&self, l: u8, r: u8, cx: &mut Context) -> Result<Kind, Fault>
        ensures gives { GivesRow self.now (row.Start l r) cx.old result cx.new }
    {
        self.ask_start(l, r, cx)?;
        self.locate(l, Some(r), Rule::Start, cx)
    }

    #[cycle(descend)]
    fn past_row(&self, l: u8, m: u8, k: u8, cx: &mut Context) -> Result<Kind, Fault>
        ensures gives { GivesRow self.now (row.Past l m k) cx.old result cx.new }
    {
        let m = u16::from(m);
        self.ask_past(l, m, cx)?;
        self.locate(l, cx.region_of(m), Rule::Past { m, k }, cx)
    }

    #[cycle(descend)]
    fn after_row(&self, l: u8, m: u8, t: u8, cx: &mut Context) -> Result<Kind, Fault>
        ensures gives { GivesRow self.now (row.After l m t) cx.old result cx.new }
    {
        let m = u16::from(m);
        self.ask_after(l, m, t, cx)?;
        self.locate(l, cx.region_of(m), Rule::After { m }, cx)
    }

    // A child that this row says starts at row `start`: one further on.
    #[cycle(descend)]
    fn later(&self, start: u16, cx: &mut Context) -> Result<Kind, Fault>
        ensures gives { (f : ℕ) → length (rows_of self.now.program.now.rows) ≤ self.now.at + 1 + f → Gives result cx.new (further (program_of self.now.program.now) (term_of (program_of self.now.program.now) f) self.now.at start cx.old) }
    {
        let child = usize::from(start);
        self.ask(self.at < child, Reason::RowOrder)?;
        self.program.term(child, cx)
    }

    #[cycle(descend)]
    fn let_row(&self, x: u8, t: u8, l: u8, body: u16, cx: &mut Context) -> Result<Kind, Fault>
        ensures gives { GivesRow self.now (row.Let x t l body) cx.old result cx.new }
    {
        let to = u16::from(l);
        self.ask_let(x, t, to, cx)?;
        let bound = self.program.term(self.at + 1, cx)?;
        self.ask(bound.is_same(Kind::of(t, to)), Reason::Kind)?;
        self.ask(bound.lies_at(to), Reason::Unwritten)?;
        cx.set_variable(x, Some(bound));
        let kind = self.later(body, cx)?;
        cx.set_variable(x, None);
        Ok(kind)
    }

    #[cycle(descend)]
    fn test_row(&self, x: u8, y: u8, other: u16, cx: &mut Context) -> Result<Kind, Fault>
        ensures gives { GivesRow self.now (row.Test x y other) cx.old result cx.new }
    {
        self.ask_integers(x, y, cx)?;
        let start = cx.progress;
        let first = self.program.term(self.at + 1, cx)?;
        let end = cx.progress;
        cx.progress = start;
        let second = self.later(other, cx)?;
        self.ask_alike(first, &end, second, cx)?;
        Ok(second)
    }

    #[cycle(descend)]
    fn case_row(&self, x: u8, cx: &mut Context) -> Result<Kind, Fault>
        ensures gives { GivesRow self.now (row.Case x) cx.old result cx.new }
    {
        let home = cx.region_of(self.ask_case(x, cx)?);
        let start = cx.progress;
        let arm = self.program.branch_at(self.at + 1, home, cx)?;
        let case = Case {
            row: *self,
            home,
            start,
            kind: arm.kind,
            end: cx.progress,
        };
        case.behind(self.at + 1, arm, cx)
    }
}
