// The layouts of a store, as the model knows them.

#[derive(Clone, Copy)]
pub enum Layout {
    Flat,
    Paged,
}

impl Layout {
    pub fn name(self) -> &'static str {
        match self {
            Layout::Flat => "flat",
            Layout::Paged => "paged",
        }
    }

    pub fn grain(self) -> usize {
        match self {
            Layout::Flat => 1,
            Layout::Paged => 64,
        }
    }

    // What a region of this many cells takes.
    pub fn taken(self, room: usize) -> usize {
        match self {
            Layout::Flat => room,
            Layout::Paged => room.div_ceil(64).saturating_mul(64),
        }
    }

    // How many cells of a buffer a store has.
    pub fn total(self, long: usize) -> usize {
        let used = long.min(65536);
        match self {
            Layout::Flat => used,
            Layout::Paged => used / 64 * 64,
        }
    }
}
