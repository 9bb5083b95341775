// What a store asks of its regions, and how they grow.
ghost use Rattle.std.specs.Prelude.{◌≡◌, ◌-◌, ◌≤◌, MatchResult};
ghost use Rattle.cells.specs.Calls.{answer};
ghost use Rattle.stores.specs.Opening.{outside, unknown, shut, Opened, first_in, room_in};
ghost use Rattle.stores.specs.Regions.{grains_of, region_of};

use super::{Region, Regions};
use cells::{MAX_REGIONS, MAX_ROOM};
use packed::{Fault, Reason, refused};

impl Regions {
    // No region of any grain.
    pub fn new(grain: usize, grains: usize) -> Regions
        requires { 1 ≤ grain }
        ensures count { result.count ≡ 0 }
        ensures grain { result.grain ≡ grain }
        ensures grains { result.grains ≡ grains }
        ensures taken { result.taken ≡ 0 }
    {
        Regions {
            list: [Region { first: 0, room: 0 }; MAX_REGIONS],
            count: 0,
            grain,
            grains,
            taken: 0,
        }
    }

    // How many grains are free.
    pub fn free(&self) -> usize
        ensures value { result ≡ self.now.grains - self.now.taken }
    {
        self.grains - self.taken
    }

    pub fn count(&self) -> usize
        ensures value { result ≡ self.now.count }
    {
        self.count
    }

    // Opens a region of this many cells behind the last, which takes `need` grains. (The store counts them: it knows the size of
    // its grain, so that nothing is divided by a number that only a run knows.)
    pub fn open(&mut self, room: usize, need: usize) -> Result<usize, Fault>
        requires { need ≡ grains_of self.old.grain room }
        ensures value { result ≡ answer (shut self.old room) self.old.count }
        ensures after { MatchResult result (λ _. Opened self.old self.new room) (λ _. self.new ≡ self.old) }
    {
        let number = self.count;
        let free = self.free();
        if room == 0 || room > MAX_ROOM || number >= MAX_REGIONS || need > free {
            return Err(refused(Reason::OpenRefused, 0));
        }
        self.list[number] = Region {
            first: self.taken,
            room,
        };
        self.count = number + 1;
        self.taken += need;
        Ok(number)
    }

    fn region(&self, region: usize) -> Result<Region, Fault>
        ensures value { result ≡ answer (unknown self.now region) (region_of self.now.list region) }
    {
        if region >= self.count {
            return Err(refused(Reason::UnknownRegion, 0));
        }
        Ok(self.list[region])
    }

    // How many cells a region has.
    pub fn room(&self, region: usize) -> Result<usize, Fault>
        ensures value { result ≡ answer (unknown self.now region) (room_in self.now region) }
    {
        Ok(self.region(region)?.room)
    }

    // The first grain of the region that a cell lies in.
    pub fn first(&self, region: usize, cell: usize) -> Result<usize, Fault>
        ensures value { result ≡ answer (outside self.now region cell) (first_in self.now region) }
    {
        let of = self.region(region)?;
        if cell >= of.room {
            return Err(refused(Reason::PastRoom, 0));
        }
        Ok(of.first)
    }
}
