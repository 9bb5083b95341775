// A reading of rows in order, from the first to the last.
ghost use Rattle.std.specs.Prelude.{◌≡◌, ◌<◌, List, [], ◌∷◌, ◌++◌, length, OnOk, Some};
ghost use Rattle.table.specs.Held.{rows_of};
ghost use Rattle.table.specs.Order.{Due, body, bodies, branch, child, least};
ghost use Rattle.table.specs.Walks.{behind, hung, left, named, stepped, trailing};

use super::hanging::Hanging;
use crate::row::Row;
use crate::rows::Rows;

// How far the reading has come: every row before `end` stands in its place. `lowest` is the lowest row so far that names a
// wrong row, if one does.
#[derive(Drop)]
pub struct Walk<'a> {
    pub rows: Rows<'a>,
    pub end: usize,
    pub lowest: Option<usize>,
}

// The lower of a row found before, if one was, and row n.
fn lower(found: Option<usize>, n: usize) -> usize
    ensures value { Some result ≡ least found (Some n) }
{
    found.map_or(n, |m| m.min(n))
}

// What reads a part answers the lowest row that is out of order, where the reading has to break off.
// (The rows are promised to stay because a function that is lent the walk to change it could put others there.)
impl<'a> Walk<'a> {
    // The bodies of all functions, which have these first rows, one behind the other, and nothing behind them.
    pub fn read(&mut self, firsts: &[u16]) -> Result<(), usize>
        ensures goes { left self.old (bodies firsts.now) ≡ behind result (λ _. self.new.lowest) }
    {
        for first in firsts {
            self.read_body(*first)?;
        }
        if self.end < self.rows.len() {
            return Err(self.broken());
        }
        Ok(())
    }

    // The body of a function with this first row.
    fn read_body(&mut self, first: u16) -> Result<(), usize>
        ensures rows { self.new.rows ≡ self.old.rows }
        ensures goes { (due : List Due) → left self.old (body first ∷ due) ≡ behind result (λ _. left self.new due) }
    {
        if self.end != usize::from(first) {
            return Err(self.broken());
        }
        self.read_child()
    }

    // A row that is no branch, and all that hangs on it.
    #[cycle(read_branches_read_child)]
    fn read_child(&mut self) -> Result<(), usize>
        ensures rows { self.new.rows ≡ self.old.rows }
        ensures beyond { OnOk result (self.old.end < self.new.end) }
        ensures goes { (due : List Due) → left self.old (child ∷ due) ≡ behind result (λ _. left self.new due) }
    {
        let n = self.end;
        let hanging = self.hanging()?;
        self.end += 1;
        match hanging {
            Hanging::Nothing => Ok(()),
            Hanging::Child => self.read_child(),
            Hanging::Children { start } => {
                self.read_child()?;
                self.test_name(n, start);
                self.read_child()
            }
            Hanging::Branches => self.read_branches(),
        }
    }

    // The branches of a case from the next row on, and all that hangs on them.
    #[cycle(read_branches_read_child)]
    fn read_branches(&mut self) -> Result<(), usize>
        ensures rows { self.new.rows ≡ self.old.rows }
        ensures beyond { OnOk result (self.old.end < self.new.end) }
        ensures goes { (due : List Due) → left self.old (branch ∷ due) ≡ behind result (λ _. left self.new due) }
    {
        let n = self.end;
        let next = self.next_branch()?;
        self.end += 1;
        self.read_child()?;
        let Some(start) = next else {
            return Ok(());
        };
        self.test_name(n, start);
        self.read_branches()
    }

    // What hangs on the next row, which may be no branch.
    fn hanging(&self) -> Result<Hanging, usize>
        ensures inside { OnOk result ((self.now.end < length (rows_of self.now.rows)) × (self.now.end < 1024)) }
        ensures goes { (due : List Due) → left self.now (child ∷ due) ≡ behind result (λ h. left (stepped self.now) (hung self.now.end h ++ due)) }
    {
        let on = self.rows.get(self.end).and_then(Hanging::on);
        on.ok_or(self.broken())
    }

    // The row that the branch at the next row gives for the branch behind it, if it gives one.
    fn next_branch(&self) -> Result<Option<u16>, usize>
        ensures inside { OnOk result ((self.now.end < length (rows_of self.now.rows)) × (self.now.end < 1024)) }
        ensures goes { (due : List Due) → left self.now (branch ∷ due) ≡ behind result (λ h. left (stepped self.now) (child ∷ (trailing self.now.end h ++ due))) }
    {
        match self.rows.get(self.end) {
            Some(Row::Branch { next, .. }) => Ok((next != 0).then_some(next)),
            _ => Err(self.broken()),
        }
    }

    // Row n says that what comes next starts at row `start`. Where it does not, row n is out of order, but what comes next
    // can still be read: a lower row may yet be out of order.
    fn test_name(&mut self, n: usize, start: u16)
        ensures after { self.new ≡ named self.old n start }
    {
        if usize::from(start) != self.end {
            self.lowest = Some(lower(self.lowest, n));
        }
    }

    // The lowest row that is out of order, where the next row is.
    fn broken(&self) -> usize
        ensures value { Some result ≡ least self.now.lowest (Some self.now.end) }
    {
        lower(self.lowest, self.end)
    }
}
