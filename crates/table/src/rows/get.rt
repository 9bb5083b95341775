// What is asked of rows.
ghost use Rattle.std.specs.Prelude.{◌≡◌, ◌≤◌, length};
ghost use Rattle.std.specs.List.{slice_get};
ghost use Rattle.table.specs.Held.{rows_of};
ghost use Rattle.table.specs.Order.{rows_from};

use super::Rows;
use crate::records::Records;
use crate::row::Row;

impl<'a> Rows<'a> {
    // The rows of these records, each of which is one.
    pub(crate) fn of(records: Records<'a, Row>) -> Rows<'a>
        requires few { records.count ≤ 1024 }
        requires whole { length (rows_from records.count records.bytes.now) ≡ records.count }
        ensures value { rows_of result ≡ rows_from records.entry.count records.entry.bytes.now }
    {
        Rows { records }
    }

    // How many rows there are.
    pub fn len(&self) -> usize
        ensures value { result ≡ length (rows_of self.now) }
        ensures bound { result ≤ 1024 }
    {
        self.records.len()
    }

    // Row n, if there is one.
    pub fn get(&self, n: usize) -> Option<Row>
        ensures value { result ≡ slice_get (rows_of self.now) n }
    {
        self.records.get(n)
    }
}
