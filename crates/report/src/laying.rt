// An office's folders laid out as nodes in descent order.
ghost use Rattle.std.specs.Prelude.{◌≡◌, ◌++◌, IfOk, OnOk};
ghost use Rattle.report.specs.Laid.{entry_nodes, folder_nodes};

use crate::age::Age;
use crate::office::{Deleted, Folder};
use crate::part::Part;
use packed::Node;
use std::alloc::{AllocError, Global};

// Puts the list of these entries behind the nodes. Where memory fails, nothing is said of the nodes.
fn lay_entries(nodes: &mut Vec<Node>, entries: &[Deleted]) -> Result<(), AllocError>
    ensures after { OnOk result (nodes.new.items ≡ nodes.old.items ++ entry_nodes entries.now) }
{
    for deleted in entries {
        let id = i64::from(deleted.id);
        let age = Age::of(deleted.ago);
        nodes.push(Part::Entry { id }.into())?;
        nodes.push(Part::Age { age }.into())?;
    }
    nodes.push(Part::NoEntry.into())?;
    Ok(())
}

// The nodes of the list of these folders.
pub fn laid(heap: Global, folders: &[Folder]) -> Result<Vec<Node>, AllocError>
    ensures value { IfOk result (λ v. v.items ≡ folder_nodes folders.now) }
{
    let mut nodes = Vec::new(heap);
    for folder in folders {
        let id = i64::from(folder.id);
        nodes.push(Part::Folder { id }.into())?;
        lay_entries(&mut nodes, &folder.entries)?;
    }
    nodes.push(Part::NoFolder.into())?;
    Ok(nodes)
}
