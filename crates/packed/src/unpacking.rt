// Unpacking: bytes into nodes in descent order.
ghost use Rattle.std.specs.Prelude.{◌≡◌, ◌*◌, ◌≤◌, ◌++◌, length, drop};
ghost use Rattle.packed.specs.Reading.{Readable};
ghost use Rattle.packed.specs.Trees.{node_of, as_node, as_bytes};
ghost use Rattle.packed.specs.Shaped.{forms_of};
ghost use Rattle.packed.specs.Packing.{integer, integers_in, nodes_of, unpack_of, filled};
ghost use Rattle.packed.specs.Laws.{Judged, Accepts, PacksTo};

use crate::fault::{Fault, Reason, refused};
use crate::node::Node;
use crate::reader::whole;
use crate::shapes::Shapes;

// The integer of eight bytes.
fn integer(bytes: &[u8; 8]) -> i64
    ensures value { result ≡ integer bytes.now }
{
    i64::from_le_bytes(*bytes)
}

// The node with this tag whose k integers stand in the front of `bytes`.
fn node(tag: u8, bytes: &[u8], k: u8) -> Node
    requires few { k ≤ 4 }
    requires within { 8 * k ≤ length bytes.now }
    ensures value { result ≡ node_of tag (integers_in k bytes.now) }
{
    let mut integers = [0; 4];
    let (eights, _) = bytes.as_chunks::<8>();
    // By number: behind a zip over iter_mut a proof knows the array's length alone; of array::from_fn the proof did not close.
    for (i, eight) in eights[..usize::from(k)].iter().enumerate() {
        integers[i] = integer(eight);
    }
    Node {
        constructor: tag,
        integers,
    }
}

// How many nodes the bytes of one tree have.
fn node_count(shapes: &Shapes, bytes: &[u8]) -> usize
    requires { Readable (forms_of shapes.now) bytes.now }
    ensures value { result ≡ length (nodes_of (forms_of shapes.now) 0 bytes.now) }
{
    let mut rest = bytes;
    let mut count = 0;
    while let Some((tag, behind)) = rest.split_first() {
        rest = &behind[8 * usize::from(shapes.integers(*tag))..];
        count += 1;
    }
    count
}

// Writes the nodes of the bytes of one tree at the front.
fn put_nodes(shapes: &Shapes, bytes: &[u8], out: &mut [Node])
    requires whole { Readable (forms_of shapes.now) bytes.now }
    requires room { length (nodes_of (forms_of shapes.now) 0 bytes.now) ≤ length out.old }
    ensures after { out.new ≡ nodes_of (forms_of shapes.now) 0 bytes.now ++ drop (length (nodes_of (forms_of shapes.now) 0 bytes.now)) out.old }
{
    let mut rest = bytes;
    for place in out.iter_mut() {
        let Some((tag, behind)) = rest.split_first() else {
            break;
        };
        let k = shapes.integers(*tag);
        *place = node(*tag, behind, k);
        rest = &behind[8 * usize::from(k)..];
    }
}

// Unpacks the bytes of one tree of type `ty` into the front of `out`, and answers how many nodes it has.
// (The steps are those of `pack`, where it is said why they are not one function.)
pub fn unpack(shapes: &Shapes, ty: u8, bytes: &[u8], out: &mut [Node]) -> Result<usize, Fault>
    ensures value { result ≡ unpack_of (forms_of shapes.now) shapes.now.types ty bytes.now (length out.old) }
    ensures after { out.new ≡ filled result (nodes_of (forms_of shapes.now) 0 bytes.now) out.old }
    ensures judged { Judged as_bytes as_node (forms_of shapes.now) shapes.now.types ty bytes.now out.new result }
    ensures accepts { Accepts as_bytes as_node (forms_of shapes.now) shapes.now.types ty bytes.now (length out.old) result }
    ensures back { PacksTo (forms_of shapes.now) shapes.now.types ty bytes.now out.new result }
{
    if usize::from(ty) >= shapes.types() {
        return Err(refused(Reason::Kind, 0));
    }
    whole(shapes, bytes, ty).map_err(|place| refused(Reason::NotOneTree, place))?;
    let length = node_count(shapes, bytes);
    if length > out.len() {
        return Err(refused(Reason::ShortBuffer, 0));
    }
    put_nodes(shapes, bytes, out);
    Ok(length)
}
