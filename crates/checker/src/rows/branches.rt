// The branches of a case.
ghost use Rattle.std.specs.Prelude.{◌≡◌, ℕ, ◌+◌, ◌<◌, ◌≤◌, length, IfOk};
ghost use Rattle.std.specs.List.{slice_get};
ghost use Rattle.table.specs.Held.{rows_of};
ghost use Rattle.checker.specs.Described.{program_of};
ghost use Rattle.checker.specs.Giving.{GivesArm, GivesLater, link};
ghost use Rattle.checker.specs.Verdict.{done_with, following, term_of, follow_of, branch_at, branching};

use super::arm::Arm;
use crate::context::parts::Parts;
use crate::context::{Context, Progress};
use crate::descent::{Descent, RowAt};
use crate::fault::{ask, fault};
use crate::kind::Kind;
use packed::{Fault, Reason};
use table::Row;

// A case whose first branch is read: the region of its tree, how far writing had come before the branches, what the first
// of them gave, and how far writing had come then. Each further branch starts as the first did, and has to end alike.
#[derive(Clone, Copy)]
pub struct Case<'a> {
    pub row: RowAt<'a>,
    pub home: Option<u8>,
    pub start: Progress,
    pub kind: Kind,
    pub end: Progress,
}

impl<'a> Descent<'a> {
    // The branch at row b, of a case on a tree in region `home`.
    #[cycle(descend)]
    pub fn branch_at(&self, b: usize, home: Option<u8>, cx: &mut Context) -> Result<Arm, Fault>
        ensures gives { (f : ℕ) → length (rows_of self.now.rows) ≤ b + 1 + f → GivesArm result cx.new (branch_at (program_of self.now) (term_of (program_of self.now) f) b home cx.old (slice_get (rows_of self.now.rows) b)) }
        ensures inside { IfOk result (λ _. b < length (rows_of self.now.rows)) }
    {
        let Some(Row::Branch { form, x0, l0, next }) = self.rows.get(b) else {
            return Err(fault(Reason::RowOrder, b));
        };
        RowAt {
            program: &*self,
            at: b,
        }
        .branch(home, form, x0, l0, next, cx)
    }
}

impl<'a> RowAt<'a> {
    #[cycle(descend)]
    fn branch(
        &self,
        home: Option<u8>,
        form: u8,
        x: u8,
        l: u8,
        next: u16,
        cx: &mut Context,
    ) -> Result<Arm, Fault>
        ensures gives { (f : ℕ) → length (rows_of self.now.program.now.rows) ≤ self.now.at + 1 + f → GivesArm result cx.new (branching (program_of self.now.program.now) (term_of (program_of self.now.program.now) f) self.now.at home cx.old form x l next) }
    {
        let f = self
            .ask_branch(form, x, l, cx)?
            .ok_or(self.fault(Reason::Kind))?;
        let parts = Parts {
            home,
            form: &f,
            x,
            l,
        };
        cx.part(parts);
        let kind = self.program.term(self.at + 1, cx)?;
        let stays = kind.lies_within(u16::from(l), f.fields.subtrees);
        self.ask(!stays, Reason::ChildLeft)?;
        cx.unpart(parts);
        let next = (next != 0).then_some(usize::from(next));
        Ok(Arm { kind, next })
    }
}

impl<'a> Case<'a> {
    // The branches from row b on.
    #[cycle(descend)]
    fn follow(&self, b: usize, cx: &mut Context) -> Result<Kind, Fault>
        ensures gives { GivesLater self.now b (λ f c first. follow_of (program_of self.now.row.program.now) f self.now.row.at c self.now.home b cx.old first) result cx.new }
    {
        cx.progress = self.start;
        let arm = self.row.program.branch_at(b, self.home, cx)?;
        self.row.ask_alike(self.kind, &self.end, arm.kind, cx)?;
        self.behind(b, arm, cx)
    }

    // The branches behind the one at row b, which gave this.
    #[cycle(descend)]
    pub fn behind(&self, b: usize, arm: Arm, cx: &mut Context) -> Result<Kind, Fault>
        requires { b < length (rows_of self.now.row.program.now.rows) }
        ensures gives { GivesLater self.now (b + 1) (λ f c first. following (program_of self.now.row.program.now) (follow_of (program_of self.now.row.program.now) f self.now.row.at c self.now.home) b (link arm.next) first (done_with arm.kind cx.old)) result cx.new }
    {
        let Some(next) = arm.next else {
            return Ok(arm.kind);
        };
        ask(b < next, Reason::RowOrder, b)?;
        self.follow(next, cx)
    }
}
