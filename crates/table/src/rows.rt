// The rows of a table, each of which is known to be one.
ghost use Rattle.std.specs.Prelude.{◌≡◌, ◌≤◌, length};
ghost use Rattle.table.specs.Order.{rows_from};

use crate::records::Records;
use crate::row::Row;

// (It stays apart from Functions, which wraps the same Records: see there.)
#[derive(Clone, Copy)]
pub struct Rows<'a> {
    records: Records<'a, Row>,
    ghost few: { records.count ≤ 1024 },
    ghost whole: { length (rows_from records.count records.bytes.now) ≡ records.count },
}

mod get;
