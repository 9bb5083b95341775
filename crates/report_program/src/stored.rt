// What became of bytes that were held in a region of a store.

#[derive(Drop)]
pub struct Stored {
    // The region's number.
    pub region: usize,
    // How many cells were free before, and after.
    pub before: usize,
    pub after: usize,
    // What was got back.
    pub back: Vec<u8>,
}
