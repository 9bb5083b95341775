// Sections: a count in a word, and that many records of one width.
ghost use Rattle.std.specs.Prelude.{◌≡◌, ◌+◌, ◌*◌, ◌≤◌, length};
ghost use Rattle.table.specs.Sections.{within};

use crate::record::Record;
use crate::records::Records;

// Where the records of a section start and end, and how many there are.
#[derive(Clone, Copy, Debug, PartialEq, Eq)]
pub struct Section {
    pub start: usize,
    pub count: usize,
    pub end: usize,
}

impl Section {
    // The records' bytes.
    pub(crate) fn within<'a>(&self, bytes: &'a [u8]) -> &'a [u8]
        requires { (self.now.start ≤ self.now.end) × (self.now.end ≤ length bytes.now) }
        ensures value { result.now ≡ within bytes.now self.now }
    {
        &bytes[self.start..self.end]
    }

    // The records, of the kind R.
    pub(crate) fn records<'a, R: Record>(&self, bytes: &'a [u8]) -> Records<'a, R>
        requires { (self.now.end ≡ self.now.start + self.now.count * R.WIDTH) × (self.now.end ≤ length bytes.now) }
        ensures counted { result.count ≡ self.now.count }
        ensures value { result.bytes.now ≡ within bytes.now self.now }
    {
        Records::of(self.within(bytes), self.count)
    }
}

// The four sections of a table.
#[derive(Clone, Copy, Debug, PartialEq, Eq)]
pub struct Layout {
    pub types: Section,
    pub constructors: Section,
    pub functions: Section,
    pub rows: Section,
}
