// What a list of deleted entries says, entry by entry, read from its nodes.
ghost use Rattle.std.specs.Prelude.{◌≡◌, ◌≤◌, length, IfOk};
ghost use Rattle.report.specs.Rows.{row_at, place_after, rows_in, nowhere, kept_in};

use crate::part::Part;
use crate::row::{Place, Row};
use packed::Node;
use std::alloc::{AllocError, Global};

impl Place {
    // The row that a part completes: only an age does.
    fn row(self, part: Option<Part>) -> Option<Row>
        ensures value { result ≡ row_at self part }
    {
        match part {
            Some(Part::Age { age }) => Some(Row {
                folder: self.folder,
                entry: self.entry,
                age,
            }),
            _ => None,
        }
    }

    // The place behind a part.
    fn after(self, part: Option<Part>) -> Place
        ensures value { result ≡ place_after self part }
    {
        match part {
            Some(Part::Folder { id }) => Place { folder: id, ..self },
            Some(Part::Entry { id }) => Place { entry: id, ..self },
            _ => self,
        }
    }
}

// One row for each age among the nodes, with the folder and the entry last passed.
pub fn rows(heap: Global, nodes: &[Node]) -> Result<Vec<Row>, AllocError>
    ensures value { IfOk result (λ v. v.items ≡ rows_in nowhere nodes.now) }
{
    let mut rows = Vec::new(heap);
    let mut place = Place {
        folder: 0,
        entry: 0,
    };
    for node in nodes {
        let part = Part::of(node);
        if let Some(row) = place.row(part) {
            rows.push(row)?;
        }
        place = place.after(part);
    }
    Ok(rows)
}

// How many of the rows are of entries that can be brought back.
pub fn kept_count(rows: &[Row]) -> usize
    ensures value { result ≡ kept_in rows.now }
    ensures bound { result ≤ length rows.now }
{
    rows.iter().filter(|row| row.age.is_kept()).count()
}
