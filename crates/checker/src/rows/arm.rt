// What a branch gives.
ghost use Rattle.std.specs.Prelude.{Some, ◌≢◌};

use crate::kind::Kind;

// The kind of its value, and the row of the branch behind it, if there is one.
#[derive(Clone, Copy)]
pub struct Arm {
    pub kind: Kind,
    pub next: Option<usize>,
    ghost behind: { next ≢ Some 0 },
}
