// The flat store: regions one behind another, and each cell is free until a region takes it.
ghost use Rattle.std.specs.Prelude.{◌≡◌, ◌+◌, ◌<◌, ◌≤◌, min, length, drop, refl, IfOk};
ghost use Rattle.cells.specs.Meaning.{fresh};
ghost use Rattle.cells.specs.Calls.{answer};
ghost use Rattle.stores.specs.Cells.{Clear, Kept, kept_joins};
ghost use Rattle.stores.specs.Opening.{first_in, outside};
ghost use Rattle.stores.specs.FlatLayout.{flat_cell, flat_meaning};
ghost use Rattle.stores.specs.Sounds.{regions_sound};

use crate::clearing::{MAX_CELLS, clear, fill, filled};
use crate::regions::Regions;
use cells::Store;
use packed::Fault;

// How many cells a grain has.
const GRAIN: usize = 1;

// The facts: a grain is a cell, all grains lie within the buffer, and those that no region takes are empty.
#[derive(Drop)]
pub struct Flat<'a> {
    cells: &'a mut [u16],
    regions: Regions,
    ghost grained: { regions.grain ≡ 1 },
    ghost whole: { regions.grains ≡ min (length cells.now) 65536 },
    ghost clear: { Clear cells.now regions.taken regions.grains },
}

impl<'a> Flat<'a> {
    // A new store on the numbers that are lent, whatever they hold. Numbers behind the 65,536th are not used.
    pub fn new(cells: &'a mut [u16]) -> Flat<'a>
        ensures value { flat_meaning result.cells.now result.regions ≡ fresh (min (length cells.old) 65536) 1 }
        ensures behind { drop (min (length cells.old) 65536) result.cells.now ≡ drop (min (length cells.old) 65536) cells.old }
    {
        let total = cells.len().min(MAX_CELLS);
        clear(cells, total);
        Flat {
            cells,
            regions: Regions::new(GRAIN, total),
        }
    }
}

impl Flat<'_> {
    // Where a cell lies.
    fn place(&self, region: usize, cell: usize) -> Result<usize, Fault>
        ensures value { result ≡ answer (outside self.now.regions region cell) (first_in self.now.regions region + cell) }
        ensures within { IfOk result (λ at. (at < self.now.regions.taken) × (at < length self.now.cells.now) × (at < 65536)) }
    {
        Ok(self.regions.first(region, cell)? + cell)
    }
}

impl<'a> Store for Flat<'a> {
    ghost meaning = { λ s. flat_meaning s.cells.now s.regions };

    ghost sound = { λ s. regions_sound s.regions (flat_cell s.cells.now s.regions.list) };

    ghost kept = { λ s t. Kept s.regions.grains s.cells.now t.regions.grains t.cells.now };

    ghost stays = { λ s. (refl, refl) };

    ghost joins = { λ a b c p q. kept_joins a.regions.grains b.regions.grains c.regions.grains a.cells.now b.cells.now c.cells.now p q };

    fn open(&mut self, room: usize) -> Result<usize, Fault> {
        self.regions.open(room, room)
    }

    fn put(&mut self, region: usize, cell: usize, byte: u8) -> Result<(), Fault> {
        let at = self.place(region, cell)?;
        fill(self.cells, at, byte)
    }

    fn get(&self, region: usize, cell: usize) -> Result<u8, Fault> {
        let at = self.place(region, cell)?;
        filled(self.cells, at)
    }

    fn free(&self) -> usize {
        self.regions.free()
    }

    fn grain(&self) -> usize {
        GRAIN
    }

    fn regions(&self) -> usize {
        self.regions.count()
    }

    fn room(&self, region: usize) -> Result<usize, Fault> {
        self.regions.room(region)
    }
}
