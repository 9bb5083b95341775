// A report on an office's deleted entries, made from what was packed and unpacked again.
ghost use Rattle.std.specs.Prelude.{◌≡◌, length, IfOk};
ghost use Rattle.packed.specs.Packing.{nodes_of, unpack_of};
ghost use Rattle.packed.specs.Shaped.{forms_of};
ghost use Rattle.report.specs.Laid.{folder_nodes};
ghost use Rattle.report.specs.Rows.{rows_of};
ghost use Rattle.report.specs.Refusing.{fault_of};

use crate::laying::laid;
use crate::office::Folder;
use crate::row::Row;
use crate::rows::rows;
use crate::show::Trouble;
use packed::{Fault, Node, Shapes, pack, unpack};
use reporting::FOLDERS;
use std::alloc::{AllocError, Global};

// The most bytes that a node takes: its tag and four integers.
const NODE_BYTES: usize = 33;

const BLANK: Node = Node {
    constructor: 0,
    integers: [0; 4],
};

#[derive(Drop)]
pub struct Report {
    // How many nodes the list was laid out as, and how many came back.
    pub laid: usize,
    pub unpacked: usize,
    // The list as it was packed.
    pub bytes: Vec<u8>,
    // What the list said once it was unpacked.
    pub rows: Vec<Row>,
}

// The bytes of a list of folders.
fn packed_list(heap: Global, shapes: &Shapes, nodes: &[Node]) -> Result<Vec<u8>, Trouble>
    ensures back { IfOk result (λ v. nodes_of (forms_of shapes.now) 0 v.items ≡ nodes.now) }
{
    let mut bytes = vec![in heap; 0; nodes.len().saturating_mul(NODE_BYTES)]?;
    let long = pack(shapes, FOLDERS, nodes, bytes.as_mut_slice())?;
    bytes.truncate(long);
    Ok(bytes)
}

// The nodes of a list of folders. Each takes at least a byte. (Apart from the packing above: a function for both would be given the
// blank, the length and the call, and be no shorter.)
fn unpacked_list(heap: Global, shapes: &Shapes, bytes: &[u8]) -> Result<Vec<Node>, Trouble>
    ensures value { IfOk result (λ v. v.items ≡ nodes_of (forms_of shapes.now) 0 bytes.now) }
{
    let mut nodes = vec![in heap; BLANK; bytes.len()]?;
    let count = unpack(shapes, FOLDERS, bytes, nodes.as_mut_slice())?;
    nodes.truncate(count);
    Ok(nodes)
}

// The report on these folders: a row for each deleted entry, with what its days mean.
pub fn report_on(heap: Global, shapes: &Shapes, folders: &[Folder]) -> Result<Report, Trouble>
    ensures told { IfOk result (λ p. p.rows.items ≡ rows_of folders.now) }
    ensures counted { IfOk result (λ p. (p.laid ≡ length (folder_nodes folders.now)) × (p.unpacked ≡ length (folder_nodes folders.now))) }
{
    let list = laid(heap, folders)?;
    let bytes = packed_list(heap, shapes, &list)?;
    let nodes = unpacked_list(heap, shapes, &bytes)?;
    let rows = rows(heap, &nodes)?;
    Ok(Report {
        laid: list.len(),
        unpacked: nodes.len(),
        bytes,
        rows,
    })
}

// Why bytes are refused as a tree of this type, if they are.
pub fn refusal(
    heap: Global,
    shapes: &Shapes,
    ty: u8,
    bytes: &[u8],
) -> Result<Option<Fault>, AllocError>
    ensures value { IfOk result (λ o. o ≡ fault_of (unpack_of (forms_of shapes.now) shapes.now.types ty bytes.now (length bytes.now))) }
{
    let mut nodes = vec![in heap; BLANK; bytes.len()]?;
    Ok(unpack(shapes, ty, bytes, nodes.as_mut_slice()).err())
}
