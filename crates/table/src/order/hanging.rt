// What hangs on a row that is no branch, whatever else the row holds.
ghost use Rattle.std.specs.Prelude.{ℕ};
ghost use Rattle.table.specs.Walks.{Hangs};

use crate::row::Row;

#[derive(Clone, Copy)]
pub enum Hanging {
    Nothing,
    Child,
    // the row says that the second child starts at row `start`
    Children { start: u16 },
    Branches,
}

impl Hanging {
    // What hangs on a row by its kind, unless it is a branch.
    pub fn on(row: Row) -> Option<Hanging>
        ensures due { (n : ℕ) → Hangs n row result }
    {
        match row {
            Row::Region { .. } | Row::Start { .. } => Some(Hanging::Child),
            Row::Past { .. } | Row::After { .. } => Some(Hanging::Child),
            Row::Let { body, .. } => Some(Hanging::Children { start: body }),
            Row::Test { other, .. } => Some(Hanging::Children { start: other }),
            Row::Case { .. } => Some(Hanging::Branches),
            Row::Branch { .. } => None,
            _ => Some(Hanging::Nothing),
        }
    }
}
