// An office's deleted entries, folder by folder.
use std::alloc::{AllocError, Global};

// An entry that was deleted so many days ago.
#[derive(Clone, Copy)]
pub struct Deleted {
    pub id: u32,
    pub ago: u16,
}

#[derive(Drop)]
pub struct Folder {
    pub id: u32,
    pub entries: Vec<Deleted>,
}

// The bank's folder: the last entry's thirty days are over.
const BANK: [Deleted; 3] = [
    Deleted { id: 101, ago: 2 },
    Deleted { id: 104, ago: 29 },
    Deleted { id: 107, ago: 30 },
];

// The printers' folder: one entry long past its thirty days, one deleted today.
const PRINTERS: [Deleted; 2] = [Deleted { id: 210, ago: 75 }, Deleted { id: 212, ago: 0 }];

// The office that the report is shown on. Its last folder has lost no entry.
pub fn sample(heap: Global) -> Result<Vec<Folder>, AllocError> {
    let mut folders = Vec::new(heap);
    folders.push(Folder {
        id: 11,
        entries: BANK.to_vec(heap)?,
    })?;
    folders.push(Folder {
        id: 12,
        entries: PRINTERS.to_vec(heap)?,
    })?;
    folders.push(Folder {
        id: 15,
        entries: Vec::new(heap),
    })?;
    Ok(folders)
}
