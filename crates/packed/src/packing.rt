// Packing: nodes in descent order into bytes.
ghost use Rattle.std.specs.Prelude.{◌≡◌, ℕ, ◌+◌, ◌*◌, ◌<◌, ◌≤◌, List, ◌++◌, length, take, drop};
ghost use Rattle.packed.specs.Buffers.{Front};
ghost use Rattle.packed.specs.Trees.{AllWhole, Whole, as_node, as_bytes, eight};
ghost use Rattle.packed.specs.Shaped.{forms_of};
ghost use Rattle.packed.specs.Packing.{bytes_of, pack_of, filled};
ghost use Rattle.packed.specs.Laws.{Judged, Accepts, UnpacksTo};

use crate::bytes::head_len;
use crate::fault::{Fault, Reason, refused};
use crate::node::Node;
use crate::reader::whole;
use crate::shapes::Shapes;

// Writes the eight bytes of z from `at` on.
fn put_integer(out: &mut [u8], at: usize, z: i64)
    requires { at + 8 ≤ length out.old }
    ensures { (word old : List ℕ) → Front word old at out.old → Front (word ++ eight z) old (at + 8) out.new }
{
    let bytes = z.to_le_bytes();
    out[at..at + 8].copy_from_slice(&bytes);
}

// Writes a node's tag and its first k integers from `at` on.
// (k ≤ 4 is asked here and of `node`: both go through arrays of four by it. A type for it would be made for these two alone.)
fn put_head(out: &mut [u8], at: usize, node: &Node, k: u8)
    requires whole { Whole node.now }
    requires few { k ≤ 4 }
    requires room { at + (1 + 8 * k) ≤ length out.old }
    ensures { (word old : List ℕ) → Front word old at out.old → Front (word ++ as_bytes node.now.constructor (take k node.now.integers)) old (at + (1 + 8 * k)) out.new }
{
    out[at] = node.constructor;
    // By place: behind chunks of a buffer that is lent to be written a proof knows its length alone.
    for (i, z) in node.integers[..usize::from(k)].iter().enumerate() {
        put_integer(out, at + 1 + 8 * i, *z);
    }
}

// How many bytes the nodes take.
fn packed_len(shapes: &Shapes, nodes: &[Node]) -> usize
    requires { AllWhole nodes.now }
    ensures value { result ≡ length (bytes_of (forms_of shapes.now) nodes.now) }
{
    nodes
        .iter()
        .map(|node| head_len(shapes.integers(node.constructor)))
        .sum()
}

// Writes the bytes of the nodes at the front.
// (`at` counts on: heads differ in length, so chunks do not fit; a rest split off needs the same length, and is no plainer.)
fn put_heads(shapes: &Shapes, nodes: &[Node], out: &mut [u8])
    requires whole { AllWhole nodes.now }
    requires room { length (bytes_of (forms_of shapes.now) nodes.now) ≤ length out.old }
    ensures after { out.new ≡ bytes_of (forms_of shapes.now) nodes.now ++ drop (length (bytes_of (forms_of shapes.now) nodes.now)) out.old }
{
    let mut at = 0;
    for node in nodes {
        let k = shapes.integers(node.constructor);
        put_head(out, at, node, k);
        at += head_len(k);
    }
}

// Packs the nodes of one tree of type `ty` into the front of `out`, and answers how many bytes it took.
// (`unpack` takes the same steps. One function for both would need a trait with each step and its laws: no plainer.)
pub fn pack(shapes: &Shapes, ty: u8, nodes: &[Node], out: &mut [u8]) -> Result<usize, Fault>
    ensures value { result ≡ pack_of (forms_of shapes.now) shapes.now.types ty nodes.now (length out.old) }
    ensures after { out.new ≡ filled result (bytes_of (forms_of shapes.now) nodes.now) out.old }
    ensures judged { Judged as_node as_bytes (forms_of shapes.now) shapes.now.types ty nodes.now out.new result }
    ensures accepts { Accepts as_node as_bytes (forms_of shapes.now) shapes.now.types ty nodes.now (length out.old) result }
    ensures back { UnpacksTo (forms_of shapes.now) shapes.now.types ty nodes.now out.new result }
{
    if usize::from(ty) >= shapes.types() {
        return Err(refused(Reason::Kind, 0));
    }
    whole(shapes, nodes, ty).map_err(|place| refused(Reason::NotOneTree, place))?;
    let length = packed_len(shapes, nodes);
    if length > out.len() {
        return Err(refused(Reason::ShortBuffer, 0));
    }
    put_heads(shapes, nodes, out);
    Ok(length)
}
