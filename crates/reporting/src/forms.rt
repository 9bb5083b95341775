// The types and constructors of a list of deleted entries: their numbers, and what they hold.
use packed::Fields;

// The types' numbers: a list of folders, a list of entries, and an age.
pub const FOLDERS: u8 = 0;

pub const ENTRIES: u8 = 1;

pub const AGE: u8 = 2;

// What a number of a type says where it is no type: that an integer stands there, or nothing.
pub const INTEGER: u8 = 254;

pub const NONE: u8 = 255;

// The end of a list.
pub const END: Fields = Fields {
    integers: 0,
    subtrees: 0,
    types: [NONE; 4],
};

// A folder: its id; its entries, and the next folder.
pub const FOLDER_FIELDS: Fields = Fields {
    integers: 1,
    subtrees: 2,
    types: [ENTRIES, FOLDERS, NONE, NONE],
};

// An entry: its id; its age, and the next entry.
pub const ENTRY_FIELDS: Fields = Fields {
    integers: 1,
    subtrees: 2,
    types: [AGE, ENTRIES, NONE, NONE],
};

// Deleted so many days ago, and so many days left.
pub const KEPT_FIELDS: Fields = Fields {
    integers: 2,
    subtrees: 0,
    types: [NONE; 4],
};

// Gone for good since so many days.
pub const GONE_FIELDS: Fields = Fields {
    integers: 1,
    subtrees: 0,
    types: [NONE; 4],
};

// The constructors' numbers.
pub const NO_FOLDER: u8 = 0;

pub const FOLDER: u8 = 1;

pub const NO_ENTRY: u8 = 2;

pub const ENTRY: u8 = 3;

pub const KEPT: u8 = 4;

pub const GONE: u8 = 5;
