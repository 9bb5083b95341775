// Nodes that are written as text: `K:i0:i1:i2:i3`, one behind the other with commas between them.
ghost use Rattle.std.specs.Prelude.{◌≡◌, IfOk, vec_items};
ghost use Rattle.std.specs.Option.{option_map};
ghost use Rattle.words.specs.Nodes.{four_spelled, node_spelled, nodes_written};

use crate::numbers::{byte, integer};
use crate::pieces::each_piece;
use crate::text::split_once;
use packed::Node;
use std::alloc::{AllocError, Global};

// Four integers with colons between them.
fn four(text: &[u8]) -> Option<[i64; 4]>
    ensures value { result ≡ four_spelled text.now }
{
    let (first, rest) = split_once(text, b':')?;
    let (second, rest) = split_once(rest, b':')?;
    let (third, fourth) = split_once(rest, b':')?;
    Some([
        integer(first)?,
        integer(second)?,
        integer(third)?,
        integer(fourth)?,
    ])
}

// The node that a text writes, if it writes one.
fn node(text: &[u8]) -> Option<Node>
    ensures value { result ≡ node_spelled text.now }
{
    let (constructor, integers) = split_once(text, b':')?;
    Some(Node {
        constructor: byte(constructor)?,
        integers: four(integers)?,
    })
}

// The nodes that a word of a command writes. No nodes are written `-`.
pub fn nodes_written(heap: Global, word: &[u8]) -> Result<Option<Vec<Node>>, AllocError>
    ensures value { IfOk result (λ o. option_map vec_items o ≡ nodes_written word.now) }
{
    match word {
        [b'-'] => Ok(Some(Vec::new(heap))),
        _ => each_piece(heap, word, node),
    }
}
