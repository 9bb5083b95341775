// Reads and packs the deepest trees that a region can hold. The gate runs it with the stack that a client has.
#![tactic(auto)]

use anyhow::anyhow;
use packed::{Fault, Fields, Node, Shapes, pack, unpack};
use std::alloc::{AllocError, Global};

// As many heads of one byte as a region has cells.
const HEADS: usize = 32_768;

const NO_TYPE: u8 = 255;

// The constructors of the one type: without subtrees, with one, and with two.
const LEAF: u8 = 0;

const WRAP: u8 = 1;

const PAIR: u8 = 2;

const SIZES: [u8; 1] = [3];

const FIELDS: [Fields; 3] = [
    Fields {
        integers: 0,
        subtrees: 0,
        types: [NO_TYPE; 4],
    },
    Fields {
        integers: 0,
        subtrees: 1,
        types: [0, NO_TYPE, NO_TYPE, NO_TYPE],
    },
    Fields {
        integers: 0,
        subtrees: 2,
        types: [0, 0, NO_TYPE, NO_TYPE],
    },
];

// `count` times one head, and leaves behind them.
fn heads(heap: Global, head: u8, count: usize, leaves: usize) -> Result<Vec<u8>, AllocError> {
    let mut bytes = vec![in heap; head; count]?;
    bytes.resize(count.saturating_add(leaves), LEAF)?;
    Ok(bytes)
}

fn taken(answer: Result<usize, Fault>) -> anyhow::Result<usize> {
    answer.map_err(|_| anyhow!("a tree was refused"))
}

// Whether a tree that is unpacked and packed again is the same.
fn comes_back(heap: Global, shapes: &Shapes, bytes: &[u8]) -> anyhow::Result<bool> {
    let blank = Node {
        constructor: LEAF,
        integers: [0; 4],
    };
    let mut nodes = vec![in heap; blank; bytes.len()]?;
    let count = taken(unpack(shapes, 0, bytes, nodes.as_mut_slice()))?;
    nodes.truncate(count);
    let mut again = vec![in heap; 0; bytes.len()]?;
    let length = taken(pack(shapes, 0, &nodes, again.as_mut_slice()))?;
    again.truncate(length);
    Ok(again.as_slice() == bytes)
}

fn main(rt: HostRuntime) -> anyhow::Result<()> {
    let shapes = Shapes::new(&SIZES, &FIELDS).map_err(|_| anyhow!("the shapes break a limit"))?;
    let chain = heads(rt.alloc(), WRAP, HEADS - 1, 1)?;
    let chain_comes_back = comes_back(rt.alloc(), &shapes, &chain)?;
    println!(rt; "each head inside the one before, 32768 bytes: {chain_comes_back}")?;
    let leaning = heads(rt.alloc(), PAIR, HEADS / 2 - 1, HEADS / 2)?;
    let leaning_comes_back = comes_back(rt.alloc(), &shapes, &leaning)?;
    println!(rt; "each head first inside the one before, 32767 bytes: {leaning_comes_back}")?;
    Ok(())
}
