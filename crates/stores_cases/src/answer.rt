// What a call is answered, and the calls made of a store.
use cells::Store;
use packed::Fault;
use words::Call;

// A refusal as clients know it. By number, so that the model tests the numbers too.
#[derive(Clone, Copy, PartialEq, Eq)]
pub struct Refusal {
    pub number: u8,
    pub layer: u8,
    pub place: usize,
}

// Where every refusal of a store says that it arose.
pub const LAYER: u8 = 4;

pub const PLACE: usize = 0;

impl From<Fault> for Refusal {
    fn from(fault: Fault) -> Refusal {
        Refusal {
            number: fault.number(),
            layer: fault.layer,
            place: fault.place,
        }
    }
}

// Makes the call of a store. A put has the value 0, as a call has one number for an answer, whatever it is.
pub fn make<S: Store>(store: &mut S, call: Call) -> Result<usize, Refusal> {
    let value = match call {
        Call::Open(room) => store.open(room)?,
        Call::Put(region, cell, byte) => {
            store.put(region, cell, byte)?;
            0
        }
        Call::Get(region, cell) => usize::from(store.get(region, cell)?),
        Call::Free => store.free(),
        Call::Grain => store.grain(),
        Call::Regions => store.regions(),
        Call::Room(region) => store.room(region)?,
    };
    Ok(value)
}
