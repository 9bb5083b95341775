// The model: what a store means, written without regard to any store. It lists the rooms that were opened and the bytes
// that were put, and searches the list for each get.
use crate::answer::{LAYER, PLACE, Refusal};
use crate::layout::Layout;
use std::alloc::{AllocError, Global};
use words::Call;

#[derive(Clone, Copy)]
struct Entry {
    region: usize,
    cell: usize,
    byte: u8,
}

#[derive(Drop)]
pub struct Model {
    layout: Layout,
    free: usize,
    rooms: Vec<usize>,
    entries: Vec<Entry>,
}

// Every refusal of a store is of layer 4, at place 0. By number, so that the model tests the numbers too.
fn refusal(number: u8) -> Refusal {
    Refusal {
        number,
        layer: LAYER,
        place: PLACE,
    }
}

impl Model {
    pub fn new(heap: Global, layout: Layout, long: usize) -> Model {
        Model {
            layout,
            free: layout.total(long),
            rooms: Vec::new(heap),
            entries: Vec::new(heap),
        }
    }

    fn byte_at(&self, region: usize, cell: usize) -> Option<u8> {
        self.entries
            .iter()
            .find(|entry| entry.region == region && entry.cell == cell)
            .map(|entry| entry.byte)
    }

    fn room(&self, region: usize) -> Result<usize, Refusal> {
        self.rooms.get(region).copied().ok_or(refusal(61))
    }

    // What a cell holds that lies in a room.
    fn held(&self, region: usize, cell: usize) -> Result<Option<u8>, Refusal> {
        if cell >= self.room(region)? {
            return Err(refusal(62));
        }
        Ok(self.byte_at(region, cell))
    }

    fn get(&self, region: usize, cell: usize) -> Result<usize, Refusal> {
        self.held(region, cell)?.map(usize::from).ok_or(refusal(64))
    }

    fn put(
        &mut self,
        region: usize,
        cell: usize,
        byte: u8,
    ) -> Result<Result<usize, Refusal>, AllocError> {
        match self.held(region, cell) {
            Err(why) => Ok(Err(why)),
            Ok(Some(_)) => Ok(Err(refusal(63))),
            Ok(None) => {
                self.entries.push(Entry { region, cell, byte })?;
                Ok(Ok(0))
            }
        }
    }

    fn open(&mut self, room: usize) -> Result<Result<usize, Refusal>, AllocError> {
        let number = self.rooms.len();
        let taken = self.layout.taken(room);
        if room == 0 || room > 32768 || number == 32 || taken > self.free {
            return Ok(Err(refusal(65)));
        }
        self.rooms.push(room)?;
        self.free -= taken;
        Ok(Ok(number))
    }

    // What the call is answered.
    pub fn make(&mut self, call: Call) -> Result<Result<usize, Refusal>, AllocError> {
        match call {
            Call::Open(room) => self.open(room),
            Call::Put(region, cell, byte) => self.put(region, cell, byte),
            Call::Get(region, cell) => Ok(self.get(region, cell)),
            Call::Free => Ok(Ok(self.free)),
            Call::Grain => Ok(Ok(self.layout.grain())),
            Call::Regions => Ok(Ok(self.rooms.len())),
            Call::Room(region) => Ok(self.room(region)),
        }
    }
}
