// A head that was read.
use crate::constructor::Constructor;

// The constructor of a head, and where its subtrees start.
#[derive(Clone, Copy)]
pub struct Head {
    pub constructor: Constructor,
    pub end: usize,
}
