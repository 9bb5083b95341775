// The paged store: regions take pages of 64 cells, and a page is tied to a region when a byte is first put there.
ghost use Rattle.std.specs.Prelude.{◌≡◌, ◌+◌, ◌*◌, ◌/◌, ◌%◌, ◌<◌, ◌≤◌, min, length, drop, refl, IfOk};
ghost use Rattle.cells.specs.Meaning.{fresh};
ghost use Rattle.cells.specs.Calls.{answer};
ghost use Rattle.stores.specs.Cells.{Clear, Kept, kept_joins};
ghost use Rattle.stores.specs.Slots.{Loose, Low, Once, page_of, pages_in};
ghost use Rattle.stores.specs.Opening.{first_in, outside};
ghost use Rattle.stores.specs.PagedLayout.{paged_cell, paged_meaning};
ghost use Rattle.stores.specs.Sounds.{regions_sound};

use crate::clearing::{clear, fill, filled};
use crate::regions::Regions;
use cells::Store;
use packed::{Fault, Reason, refused};

// The cells of a page, and how many pages there are at most.
const PAGE: usize = 64;

const MAX_PAGES: usize = 1024;

// A region has a slot for each of its grains, which are pages. The facts: each page that is tied is tied to one slot, and pages
// that are tied to none are empty.
#[derive(Drop)]
pub struct Paged<'a> {
    cells: &'a mut [u16],
    // An option for every page: no heap here, and a table by region would have to be searched.
    slots: [Option<u16>; MAX_PAGES],
    regions: Regions,
    tied: u16,
    ghost grained: { regions.grain ≡ 64 },
    ghost sized: { length slots ≡ 1024 },
    ghost whole: { regions.grains ≡ min (length cells.now / 64) 1024 },
    ghost loose: { Loose slots regions.taken },
    ghost low: { Low slots tied },
    ghost once: { Once slots },
    ghost counted: { pages_in slots ≡ tied },
    ghost clear: { Clear cells.now (tied * 64) (regions.grains * 64) },
}

impl<'a> Paged<'a> {
    // A new store on the numbers that are lent, whatever they hold. Numbers behind the last whole page, and behind the
    // 65,536th, are not used.
    pub fn new(cells: &'a mut [u16]) -> Paged<'a>
        ensures value { paged_meaning result.cells.now result.slots result.regions ≡ fresh (min (length cells.old / 64) 1024 * 64) 64 }
        ensures behind { drop (min (length cells.old / 64) 1024 * 64) result.cells.now ≡ drop (min (length cells.old / 64) 1024 * 64) cells.old }
    {
        let pages = (cells.len() / PAGE).min(MAX_PAGES);
        clear(cells, pages * PAGE);
        Paged {
            cells,
            slots: [None; MAX_PAGES],
            regions: Regions::new(PAGE, pages),
            tied: 0,
        }
    }
}

impl Paged<'_> {
    // The slot of a cell.
    fn slot(&self, region: usize, cell: usize) -> Result<usize, Fault>
        ensures value { result ≡ answer (outside self.now.regions region cell) (first_in self.now.regions region + cell / 64) }
        ensures within { IfOk result (λ slot. (slot < self.now.regions.taken) × (slot < 1024)) }
    {
        Ok(self.regions.first(region, cell)? + cell / PAGE)
    }

    // Ties the next page to a slot that has none.
    fn tie(&mut self, slot: usize) -> u16
        requires used { slot < self.old.regions.taken }
        requires loose { page_of self.old.slots slot ≡ None }
        ensures same { paged_meaning self.new.cells.now self.new.slots self.new.regions ≡ paged_meaning self.old.cells.now self.old.slots self.old.regions }
        ensures value { page_of self.new.slots slot ≡ Some result }
        ensures rest { (self.new.regions ≡ self.old.regions) × (self.new.cells.now ≡ self.old.cells.now) }
    {
        let page = self.tied;
        self.slots[slot] = Some(page);
        self.tied = page + 1;
        page
    }

    // The page of a slot, which is tied to one if it has none.
    fn page(&mut self, slot: usize) -> u16
        requires { slot < self.old.regions.taken }
        ensures same { paged_meaning self.new.cells.now self.new.slots self.new.regions ≡ paged_meaning self.old.cells.now self.old.slots self.old.regions }
        ensures value { page_of self.new.slots slot ≡ Some result }
        ensures rest { (self.new.regions ≡ self.old.regions) × (self.new.cells.now ≡ self.old.cells.now) }
    {
        match self.slots[slot] {
            Some(page) => page,
            None => self.tie(slot),
        }
    }
}

// Where a cell lies whose slot has this page.
fn within(page: u16, cell: usize) -> usize
    ensures { result ≡ page * 64 + cell % 64 }
{
    usize::from(page) * PAGE + cell % PAGE
}

impl<'a> Store for Paged<'a> {
    ghost meaning = { λ s. paged_meaning s.cells.now s.slots s.regions };

    ghost sound = { λ s. regions_sound s.regions (paged_cell s.cells.now s.slots s.regions.list) };

    ghost kept = { λ s t. Kept (s.regions.grains * 64) s.cells.now (t.regions.grains * 64) t.cells.now };

    ghost stays = { λ s. (refl, refl) };

    ghost joins = { λ a b c p q. kept_joins (a.regions.grains * 64) (b.regions.grains * 64) (c.regions.grains * 64) a.cells.now b.cells.now c.cells.now p q };

    fn open(&mut self, room: usize) -> Result<usize, Fault> {
        self.regions.open(room, room.div_ceil(PAGE))
    }

    fn put(&mut self, region: usize, cell: usize, byte: u8) -> Result<(), Fault> {
        let slot = self.slot(region, cell)?;
        let page = self.page(slot);
        fill(self.cells, within(page, cell), byte)
    }

    fn get(&self, region: usize, cell: usize) -> Result<u8, Fault> {
        let slot = self.slot(region, cell)?;
        let page = self.slots[slot].ok_or(refused(Reason::Empty, 0))?;
        filled(self.cells, within(page, cell))
    }

    fn free(&self) -> usize {
        self.regions.free() * PAGE
    }

    fn grain(&self) -> usize {
        PAGE
    }

    fn regions(&self) -> usize {
        self.regions.count()
    }

    fn room(&self, region: usize) -> Result<usize, Fault> {
        self.regions.room(region)
    }
}
