// What is asked of functions.
ghost use Rattle.std.specs.Prelude.{◌≡◌, ◌≤◌, length};
ghost use Rattle.std.specs.List.{slice_get};
ghost use Rattle.table.specs.Held.{functions_of};
ghost use Rattle.table.specs.Meaning.{records_from, function_of};

use super::Functions;
use crate::function::Function;
use crate::records::Records;

impl<'a> Functions<'a> {
    // The functions that these records describe.
    pub(crate) fn of(records: Records<'a, Function>) -> Functions<'a>
        requires { records.count ≤ 32 }
        ensures value { functions_of result ≡ records_from 8 function_of records.entry.count records.entry.bytes.now }
    {
        Functions { records }
    }

    // How many functions there are.
    pub fn len(&self) -> usize
        ensures value { result ≡ length (functions_of self.now) }
        ensures bound { result ≤ 32 }
    {
        self.records.len()
    }

    // Function f, if there is one.
    pub fn get(&self, f: usize) -> Option<Function>
        ensures value { result ≡ slice_get (functions_of self.now) f }
    {
        self.records.get(f)
    }
}
