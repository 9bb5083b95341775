// A call of a store, as a command writes it.

#[derive(Clone, Copy)]
pub enum Call {
    // of this many cells
    Open(usize),
    // region, cell and byte
    Put(usize, usize, u8),
    // region and cell
    Get(usize, usize),
    Free,
    Grain,
    Regions,
    // of this region
    Room(usize),
}
