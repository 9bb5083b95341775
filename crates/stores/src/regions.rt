// The regions of a store: one behind another, each of as many grains as its room needs.
ghost use Rattle.std.specs.Prelude.{◌≡◌, length};
ghost use Rattle.stores.specs.Regions.{InOrder};

mod calls;

use cells::MAX_REGIONS;

// Where a region lies: how many grains the regions before it take, and how many cells it has.
#[derive(Clone, Copy)]
struct Region {
    first: usize,
    room: usize,
}

// Those of the list that are open are the first `count`: an array and its length, since a store takes no memory for a Vec.
#[derive(Drop)]
pub struct Regions {
    list: [Region; MAX_REGIONS],
    count: usize,
    // the cells of a grain, how many grains there are, and how many of them regions take
    grain: usize,
    grains: usize,
    taken: usize,
    ghost sized: { length list ≡ 32 },
    ghost in_order: { InOrder list count grain grains taken },
}
