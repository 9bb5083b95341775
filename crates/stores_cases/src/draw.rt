// Calls drawn from a seed: legal and illegal ones, near the limits of what is open.
use words::Call;

// A generator of numbers: a linear congruence modulo 2 to the 64th, of which the high bits are used.
#[derive(Clone, Copy)]
pub struct Draw {
    state: u64,
}

impl Draw {
    pub fn seeded(seed: u64) -> Draw {
        Draw { state: seed }
    }

    // A number below 65,536.
    fn next(&mut self) -> usize {
        self.state = self
            .state
            .wrapping_mul(6364136223846793005)
            .wrapping_add(1442695040888963407);
        // `as`: the 16 bits that are left fit.
        (self.state >> 48) as usize
    }

    // Mostly one of the first regions, at times a later one or one that no store has.
    fn region(&mut self) -> usize {
        match self.next() % 16 {
            0 => 40,
            1 => usize::MAX,
            2 | 3 => self.next() % 34,
            _ => self.next() % 4,
        }
    }

    // Mostly a cell of the first pages, at times any that a region may have or one past them.
    fn cell(&mut self) -> usize {
        match self.next() % 16 {
            0 => usize::MAX,
            1 => self.next() % 32770,
            2..=4 => self.next() % 200,
            _ => self.next() % 24,
        }
    }

    fn room(&mut self) -> usize {
        match self.next() % 16 {
            0 => 0,
            1 => 32769,
            2 => usize::MAX,
            3 => 32768,
            4 => 64,
            5 => 65,
            6 => self.next() % 40000,
            7 => 1,
            _ => self.next() % 150,
        }
    }

    pub fn call(&mut self) -> Call {
        match self.next() % 16 {
            0 => Call::Open(self.room()),
            1 => Call::Free,
            2 => Call::Grain,
            3 => Call::Regions,
            4 => Call::Room(self.region()),
            5..=9 => Call::Get(self.region(), self.cell()),
            _ => Call::Put(self.region(), self.cell(), self.byte()),
        }
    }

    fn byte(&mut self) -> u8 {
        // `as`: the rest by 256 fits.
        (self.next() % 256) as u8
    }
}
