// The functions of a table.
ghost use Rattle.std.specs.Prelude.{◌≤◌};

use crate::function::Function;
use crate::records::Records;

// (Functions and Rows wrap the same Records: Rows knows that each is a row, and one type would ask that of functions too.)
#[derive(Clone, Copy)]
pub struct Functions<'a> {
    records: Records<'a, Function>,
    ghost few: { records.count ≤ 32 },
}

mod get;
