// The shapes, buffers and comparisons that the tests share.
use packed::{Fault, Fields, Node, Shapes};
use std::alloc::{AllocError, Global};
use std::test::*;

// Type 0 is a list of marks, type 1 a mark, type 2 a tree, and type 3 a chain.
pub const LIST: u8 = 0;

pub const MARK: u8 = 1;

pub const TREE: u8 = 2;

pub const CHAIN: u8 = 3;

pub const NO_TYPE: u8 = 4;

pub const NONE: u8 = 255;

const SIZES: [u8; 4] = [2, 2, 3, 2];

pub const LEAF: Fields = Fields {
    integers: 0,
    subtrees: 0,
    types: [NONE; 4],
};

const FIELDS: [Fields; 9] = [
    // 0 and 1: the end of a list, and a mark with the rest.
    LEAF,
    Fields {
        integers: 0,
        subtrees: 2,
        types: [MARK, LIST, NONE, NONE],
    },
    // 2 and 3: a mark of one integer, and a mark of four.
    Fields {
        integers: 1,
        subtrees: 0,
        types: [NONE; 4],
    },
    Fields {
        integers: 4,
        subtrees: 0,
        types: [NONE; 4],
    },
    // 4, 5 and 6: an empty tree, a list with an integer and a subtree, and four subtrees.
    LEAF,
    Fields {
        integers: 1,
        subtrees: 2,
        types: [LIST, TREE, NONE, NONE],
    },
    Fields {
        integers: 0,
        subtrees: 4,
        types: [TREE, MARK, TREE, LIST],
    },
    // 7 and 8: the end of a chain, and a link.
    LEAF,
    Fields {
        integers: 0,
        subtrees: 1,
        types: [CHAIN, NONE, NONE, NONE],
    },
];

pub fn shapes() -> Result<Shapes, Fail> {
    Shapes::new(&SIZES, &FIELDS).map_err(|_| Fail::new("the shapes break a limit"))
}

pub fn node(constructor: u8, integers: [i64; 4]) -> Node {
    Node {
        constructor,
        integers,
    }
}

// A node with no integer.
pub fn bare(constructor: u8) -> Node {
    node(constructor, [0; 4])
}

// What fills a buffer before a call, to be found again behind what the call writes.
pub const OLD_BYTE: u8 = 0xa5;

pub const OLD_NODE: Node = Node {
    constructor: 77,
    integers: [7, -7, 77, -77],
};

// These symbols, and then so many old ones.
pub fn then_old<T: Copy>(
    heap: Global,
    front: &[T],
    old: T,
    count: usize,
) -> Result<Vec<T>, AllocError> {
    let mut all = front.to_vec(heap)?;
    all.resize(front.len().saturating_add(count), old)?;
    Ok(all)
}

// What an answer says: how many, or a refusal's number, layer and place.
pub type Answer = Result<usize, (u8, u8, usize)>;

pub fn answer_of(res: Result<usize, Fault>) -> Answer {
    res.map_err(|fault| (fault.number(), fault.layer, fault.place))
}

// A refusal of a call, which is of layer 4.
pub fn refused(number: u8, place: usize) -> Answer {
    Err((number, 4, place))
}
