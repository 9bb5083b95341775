// The trait of every store, whose calls are promised by its meaning.
ghost use Rattle.std.specs.Prelude.{◌≡◌, length};
ghost use Rattle.cells.specs.Meaning.{Meaning, Sound, room_at};
ghost use Rattle.cells.specs.Calls.{answer, open_refusal, put_refusal, get_refusal, room_refusal, byte_at, after_open, after_put};

use packed::Fault;

// How many regions may be open, and how many cells a region may have.
pub const MAX_REGIONS: usize = 32;

pub const MAX_ROOM: usize = 32768;

// Every value of every parameter is answered. A refusal is of layer 4, at place 0, and changes nothing.
pub trait Store {
    // The cells that a client can speak of.
    ghost meaning: { Self → Meaning };

    ghost sound: { (s : Self) → Sound (meaning s) };

    // What a store keeps of its own from one state to a later one, which its meaning does not show: it holds of no call
    // and of one call behind another.
    ghost kept: { Self → Self → Type 0 };

    ghost stays: { (s : Self) → kept s s };

    ghost joins: { (a b c : Self) → kept a b → kept b c → kept a c };

    // Opens a region of this many cells, all empty, and answers its number.
    fn open(&mut self, room: usize) -> Result<usize, Fault>
        ensures value { result ≡ answer (open_refusal (meaning self.old) room) (length (meaning self.old).regions) }
        ensures after { meaning self.new ≡ after_open (meaning self.old) room }
        ensures keeps { kept self.old self.new };

    // Fills an empty cell.
    fn put(&mut self, region: usize, cell: usize, byte: u8) -> Result<(), Fault>
        ensures value { result ≡ answer (put_refusal (meaning self.old) region cell) tt }
        ensures after { meaning self.new ≡ after_put (meaning self.old) region cell byte }
        ensures keeps { kept self.old self.new };

    // The byte of a filled cell.
    fn get(&self, region: usize, cell: usize) -> Result<u8, Fault>
        ensures value { result ≡ answer (get_refusal (meaning self.now) region cell) (byte_at (meaning self.now) region cell) };

    // How many cells are free.
    fn free(&self) -> usize
        ensures value { result ≡ (meaning self.now).free };

    // What a region takes is a multiple of the grain.
    fn grain(&self) -> usize
        ensures value { result ≡ (meaning self.now).grain };

    // How many regions are open.
    fn regions(&self) -> usize
        ensures value { result ≡ length (meaning self.now).regions };

    // How many cells a region has.
    fn room(&self, region: usize) -> Result<usize, Fault>
        ensures value { result ≡ answer (room_refusal (meaning self.now) region) (room_at (meaning self.now) region) };
}
