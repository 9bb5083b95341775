// A constructor, as it is described and as it is kept, and the limits of both.

pub const MAX_TYPES: usize = 16;

pub const MAX_SIZE: u8 = 16;

pub const MAX_CONSTRUCTORS: usize = 64;

pub const MAX_INTEGERS: u8 = 4;

pub const MAX_SUBTREES: u8 = 4;

// What stands in the place of a subtree's type behind the last subtree. (Not an Option: a table's bytes have it there.)
pub const NO_TYPE: u8 = 255;

// What a constructor holds: integers, then subtrees of the named types.
// (An array of four: no heap here; a count says how many are used.)
// (Not in the type: a description may break its limits, and is then refused by number.)
#[derive(Clone, Copy, Debug, PartialEq, Eq)]
pub struct Fields {
    pub integers: u8,
    pub subtrees: u8,
    pub types: [u8; 4],
}

// A constructor with the type that it belongs to.
#[derive(Clone, Copy, Debug, PartialEq, Eq)]
pub struct Constructor {
    pub of: u8,
    pub fields: Fields,
}

// Which limit a description of types breaks.
#[derive(Clone, Copy, Debug, PartialEq, Eq)]
pub enum Limit {
    // There are not 1 to 16 types.
    TypeCount,
    // This type has not 1 to 16 constructors.
    TypeSize { of: usize },
    // The constructors are not as many as the types say, or over 64.
    ConstructorCount,
    // This constructor has over four integers or subtrees, a subtree of no type, or not 255 where none is.
    Constructor { number: usize },
}
