// The types of a program and their constructors.
ghost use Rattle.std.specs.Prelude.{◌≡◌, ◌≤◌, false, length, take, is_some};
ghost use Rattle.packed.specs.Forms.{fields_in, limit_of, numbered};

use crate::constructor::{Constructor, MAX_CONSTRUCTORS, MAX_TYPES};

// How many constructors each type has, and the constructors, numbered through all types. The facts: the arrays are as long
// as they are declared and hold that many in front, which break no limit and have the types that their numbers say.
// (No code reads `sizes`: with it the last fact can be said. Arrays with a count beside them: no heap, and a copy cannot fail.)
#[derive(Clone, Copy)]
pub struct Shapes {
    sizes: [u8; MAX_TYPES],
    types: usize,
    constructors: [Constructor; MAX_CONSTRUCTORS],
    count: usize,
    ghost room: { (length sizes ≡ 16) × (length constructors ≡ 64) },
    ghost used: { (types ≤ 16) × (count ≤ 64) },
    ghost fair: { is_some (limit_of (take types sizes) (fields_in (take count constructors))) ≡ false },
    ghost rising: { take count constructors ≡ numbered 0 (take types sizes) (fields_in (take count constructors)) },
}

mod make;
