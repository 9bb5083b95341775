// One node of a tree, apart from its subtrees.

// A constructor's number and its integers, with 0 behind those that it has.
// (An array of four: no heap here; the constructor's count says how many are used.)
#[derive(Clone, Copy, Debug, PartialEq, Eq)]
pub struct Node {
    pub constructor: u8,
    pub integers: [i64; 4],
}
