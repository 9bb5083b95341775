// The constructors of a list of deleted entries by name, and the nodes that stand for them.
ghost use Rattle.std.specs.Prelude.{◌≡◌};
ghost use Rattle.report.specs.Parts.{node_for, part_in};

use crate::age::Age;
use packed::Node;
use reporting::{ENTRY, FOLDER, GONE, KEPT, NO_ENTRY, NO_FOLDER};

// One node without its subtrees.
#[derive(Clone, Copy)]
pub enum Part {
    // The list of folders ends.
    NoFolder,
    // A folder; its entries and the next folder follow.
    Folder { id: i64 },
    // The list of entries ends.
    NoEntry,
    // An entry; its age and the next entry follow.
    Entry { id: i64 },
    // The age of the entry before it.
    Age { age: Age },
}

// The node that stands for a part.
impl From<Part> for Node {
    ghost from_gives = { λ part node. node ≡ node_for part };

    fn from(part: Part) -> Node {
        let (constructor, first, second) = match part {
            Part::NoFolder => (NO_FOLDER, 0, 0),
            Part::Folder { id } => (FOLDER, id, 0),
            Part::NoEntry => (NO_ENTRY, 0, 0),
            Part::Entry { id } => (ENTRY, id, 0),
            Part::Age {
                age: Age::Kept { ago, left },
            } => (KEPT, ago, left),
            Part::Age {
                age: Age::Gone { since },
            } => (GONE, since, 0),
        };
        Node {
            constructor,
            integers: [first, second, 0, 0],
        }
    }
}

impl Part {
    // The part that a node stands for, if its constructor is one of the list's. No TryFrom: a node that is no part is passed
    // over, so nobody would read its error.
    pub fn of(node: &Node) -> Option<Part>
        ensures value { result ≡ part_in node.now }
    {
        let [first, second, _, _] = node.integers;
        match node.constructor {
            NO_FOLDER => Some(Part::NoFolder),
            FOLDER => Some(Part::Folder { id: first }),
            NO_ENTRY => Some(Part::NoEntry),
            ENTRY => Some(Part::Entry { id: first }),
            KEPT => Some(Part::Age {
                age: Age::Kept {
                    ago: first,
                    left: second,
                },
            }),
            GONE => Some(Part::Age {
                age: Age::Gone { since: first },
            }),
            _ => None,
        }
    }
}
