// Whether rows stand in descent order, by one reading from the first row to the last.
mod hanging;
mod walk;

ghost use Rattle.std.specs.Prelude.{◌≡◌, ℕ, ◌≤◌, Some, None};
ghost use Rattle.table.specs.Order.{bodies, disorder};
ghost use Rattle.table.specs.Spans.{Bodies};
ghost use Rattle.table.specs.Faults.{Faulty};
ghost use Rattle.table.specs.Held.{rows_of};

use crate::rows::Rows;
use walk::Walk;

// The lowest row that is out of order, where the functions have these first rows.
pub fn out_of_order(rows: &Rows, firsts: &[u16]) -> Option<usize>
    ensures value { result ≡ disorder (bodies firsts.now) (rows_of rows.now) 0 }
    ensures orderly { (result ≡ None → Bodies (rows_of rows.now) 0 firsts.now) × (Bodies (rows_of rows.now) 0 firsts.now → result ≡ None) }
    ensures lowest { (p : ℕ) → result ≡ Some p → Faulty (rows_of rows.now) firsts.now p × ((q : ℕ) → Faulty (rows_of rows.now) firsts.now q → p ≤ q) }
    ensures none { result ≡ None → (q : ℕ) → Faulty (rows_of rows.now) firsts.now q → ⊥ }
{
    let mut walk = Walk {
        rows: *rows,
        end: 0,
        lowest: None,
    };
    // Where the reading breaks off, what it names is the lowest.
    walk.read(firsts).err().or(walk.lowest)
}
