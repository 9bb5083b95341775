// Why a call is refused: one record for every layer, its numbers from one definition.
ghost use Rattle.std.specs.Prelude.{◌≡◌};
ghost use Rattle.packed.specs.Faults.{found, given, number_of};
ghost use Rattle.packed.specs.Packing.{refusal};

// The grounds of refusal, each with the number that clients know it by.
#[derive(Clone, Copy, Debug, PartialEq, Eq)]
pub enum Reason {
    // bytes end before the rows do
    BytesEnd = 11,
    // bytes stand behind the rows
    BytesBehind = 12,
    // a count is outside its limit
    Count = 13,
    // a number has no meaning
    Meaning = 21,
    // rows are out of order
    RowOrder = 22,
    // a name is not in scope, or bound twice
    Scope = 31,
    // a kind or a type is wrong
    Kind = 32,
    // a new location is not asked for where it may be
    LocationRule = 33,
    // a tree is not written where it should be
    Unwritten = 34,
    // a child leaves its location behind
    ChildLeft = 35,
    // arms end differently
    ArmsDiffer = 36,
    // there is input for a program that takes none
    NoParameter = 41,
    // a room or an input has a size that is not allowed
    Room = 42,
    // something is not exactly one tree of the type
    NotOneTree = 43,
    // a store has no room for what a run opens first
    NoOpening = 44,
    // a budget is too large
    Budget = 51,
    // a run is not finished
    Unfinished = 52,
    // a buffer is too short
    ShortBuffer = 53,
    // a region is not open
    UnknownRegion = 61,
    // a cell lies past the room
    PastRoom = 62,
    // a cell is filled already
    Filled = 63,
    // a cell is empty
    Empty = 64,
    // a region cannot be opened
    OpenRefused = 65,
}

// A refusal: why, the layer that found it, and where it lies there.
// (A number: contracts and clients name layers by number, and a client may make a fault of any.)
#[derive(Clone, Copy, Debug, PartialEq, Eq)]
pub struct Fault {
    pub reason: Reason,
    pub layer: u8,
    pub place: usize,
}

impl Fault {
    pub fn new(reason: Reason, layer: u8, place: usize) -> Fault
        ensures value { result ≡ found reason layer place }
    {
        Fault {
            reason,
            layer,
            place,
        }
    }

    // Nothing where a condition holds, or else a fault.
    pub fn unless(condition: bool, reason: Reason, layer: u8, place: usize) -> Result<(), Fault>
        ensures value { result ≡ given condition reason layer place }
    {
        if condition {
            Ok(())
        } else {
            Err(Fault::new(reason, layer, place))
        }
    }

    // The number that clients know the reason by.
    pub fn number(self) -> u8
        ensures value { result ≡ number_of self.reason }
    {
        self.reason as u8
    }
}

// The layer of calls, above those of tables.
const CALL_LAYER: u8 = 4;

// A call's refusal.
pub fn refused(reason: Reason, place: usize) -> Fault
    ensures value { result ≡ refusal reason place }
{
    Fault::new(reason, CALL_LAYER, place)
}
