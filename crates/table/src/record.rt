// Records: items of one kind, each in the same number of bytes.
ghost use Rattle.std.specs.Prelude.{◌≡◌, ℕ, ◌<◌, List, length, Option, Some, slice_index};
ghost use Rattle.std.proofs.Common.{rules};
ghost use Rattle.table.specs.Meaning.{fields_of, function_of};
ghost use Rattle.table.specs.Rows.{row_of};

use crate::decoding::decode;
use crate::function::Function;
use crate::row::Row;
use packed::Fields;

// What a record of `WIDTH` bytes describes.
pub trait Record: Copy {
    const WIDTH: usize;

    ghost WIDTH: { ℕ };

    ghost item: { List ℕ → Option Self };

    // The item that a record's bytes describe, if they do.
    fn described(bytes: &[u8]) -> Option<Self>
        ensures value { length bytes.now ≡ WIDTH → result ≡ item bytes.now };

    ghost narrow: { (0 < WIDTH) × (WIDTH < 256) };
}

// How many constructors a type has.
impl Record for u8 {
    const WIDTH: usize = 1;

    ghost WIDTH = { 1 };

    ghost item = { λ bs. Some (slice_index bs 0) };

    ghost narrow = { Prim.search rules };

    fn described(bytes: &[u8]) -> Option<u8> {
        bytes.first().copied()
    }
}

impl Record for Fields {
    const WIDTH: usize = 6;

    ghost WIDTH = { 6 };

    ghost item = { λ bs. Some (fields_of bs) };

    ghost narrow = { Prim.search rules };

    fn described(bytes: &[u8]) -> Option<Fields> {
        let [integers, subtrees, a, b, c, d] = bytes else {
            return None;
        };
        Some(Fields {
            integers: *integers,
            subtrees: *subtrees,
            types: [*a, *b, *c, *d],
        })
    }
}

impl Record for Function {
    const WIDTH: usize = 8;

    ghost WIDTH = { 8 };

    ghost item = { λ bs. Some (function_of bs) };

    ghost narrow = { Prim.search rules };

    fn described(bytes: &[u8]) -> Option<Function> {
        let [parameters, a, b, c, d, result, low, high] = bytes else {
            return None;
        };
        Some(Function {
            parameters: *parameters,
            kinds: [*a, *b, *c, *d],
            result: *result,
            first: u16::from_le_bytes([*low, *high]),
        })
    }
}

impl Record for Row {
    const WIDTH: usize = 16;

    ghost WIDTH = { 16 };

    ghost item = { row_of };

    ghost narrow = { Prim.search rules };

    fn described(bytes: &[u8]) -> Option<Row> {
        decode(bytes)
    }
}
