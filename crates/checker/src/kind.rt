// What a value is, as the check knows it.
mod compare;

// The kind of an integer, as tables write it.
pub const INTEGER: u8 = 254;

// An integer, or a tree of type `of` that lies at location `at`.
#[derive(Clone, Copy, PartialEq, Eq, Debug)]
pub enum Kind {
    Integer,
    Tree { of: u8, at: u16 },
}
