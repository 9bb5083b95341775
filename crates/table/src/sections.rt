// Bytes whose sections fit: what stands in each.
ghost use Rattle.std.specs.Prelude.{◌≡◌, length};
ghost use Rattle.table.specs.Held.{functions_of, rows_of};
ghost use Rattle.table.specs.Laid.{Laid};
ghost use Rattle.table.specs.Sections.{within};
ghost use Rattle.table.specs.Table.{functions_in, rows_in, sizes_in};

use crate::function::Function;
use crate::functions::Functions;
use crate::records::Records;
use crate::row::Row;
use crate::rows::Rows;
use crate::section::Layout;
use packed::Fields;

#[derive(Clone, Copy)]
pub struct Sections<'a> {
    pub bytes: &'a [u8],
    pub layout: Layout,
    ghost laid: { Laid bytes.now layout },
}

impl<'a> Sections<'a> {
    // How many constructors each type has.
    pub fn types(&self) -> &'a [u8]
        ensures value { result.now ≡ sizes_in self.now.bytes.now self.now.layout }
    {
        self.layout.types.within(self.bytes)
    }

    pub fn constructors(&self) -> Records<'a, Fields>
        ensures counted { result.count ≡ self.now.layout.constructors.count }
        ensures value { result.bytes.now ≡ within self.now.bytes.now self.now.layout.constructors }
    {
        self.layout.constructors.records(self.bytes)
    }

    pub fn function_records(&self) -> Records<'a, Function>
        ensures counted { result.count ≡ self.now.layout.functions.count }
        ensures value { result.bytes.now ≡ within self.now.bytes.now self.now.layout.functions }
    {
        self.layout.functions.records(self.bytes)
    }

    pub fn row_records(&self) -> Records<'a, Row>
        ensures counted { result.count ≡ self.now.layout.rows.count }
        ensures value { result.bytes.now ≡ within self.now.bytes.now self.now.layout.rows }
    {
        self.layout.rows.records(self.bytes)
    }

    pub fn functions(&self) -> Functions<'a>
        ensures value { functions_of result ≡ functions_in self.now.bytes.now self.now.layout }
    {
        Functions::of(self.function_records())
    }

    // The rows, where each row record is a row.
    pub fn rows(&self) -> Rows<'a>
        requires { length (rows_in self.now.bytes.now self.now.layout) ≡ self.now.layout.rows.count }
        ensures value { rows_of result ≡ rows_in self.now.bytes.now self.now.layout }
    {
        Rows::of(self.row_records())
    }
}
