// A row of the report, and a place in the list.
use crate::age::Age;

// An entry of a folder, and what is left of it.
#[derive(Clone, Copy)]
pub struct Row {
    pub folder: i64,
    pub entry: i64,
    pub age: Age,
}

// The folder and the entry last passed.
#[derive(Clone, Copy)]
pub struct Place {
    pub folder: i64,
    pub entry: i64,
}
