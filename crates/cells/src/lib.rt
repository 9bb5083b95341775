// Stores of cells: what a store means, and what each call of a store does to that meaning.
#![tactic(auto)]

mod copying;
mod facts;
mod store;

pub use copying::{copy_through, hold};
pub use facts::{laws, worked_case};
pub use store::{MAX_REGIONS, MAX_ROOM, Store};
