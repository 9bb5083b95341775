// Cells as sixteen-bit numbers.
ghost use Rattle.std.specs.Prelude.{◌≡◌, ◌<◌, ◌≤◌, length, drop, slice_index};
ghost use Rattle.std.specs.Option.{ok_or};
ghost use Rattle.packed.specs.Packing.{refusal};
ghost use Rattle.packed.specs.declared.fault.Reason.TheVariants as reason;
ghost use Rattle.stores.specs.Cells.{Clear, Filling, content};

use packed::{Fault, Reason, refused};

// The number that stands for an empty cell. No Option: the numbers are lent by clients.
const EMPTY: u16 = 256;

// How many numbers of a buffer a store uses at most.
pub const MAX_CELLS: usize = 65536;

// Empties the cells in front; what lies behind stays as it is.
pub fn clear(cells: &mut [u16], total: usize)
    requires { total ≤ length cells.old }
    ensures clear { Clear cells.new 0 total }
    ensures behind { drop total cells.new ≡ drop total cells.old }
{
    cells[..total].fill(EMPTY);
}

// The byte of a filled cell.
pub fn byte_in(cell: u16) -> Option<u8>
    ensures value { result ≡ content cell }
{
    u8::try_from(cell).ok()
}

// The byte of the cell at a place.
pub fn filled(cells: &[u16], at: usize) -> Result<u8, Fault>
    requires { at < length cells.now }
    ensures value { result ≡ ok_or (content (slice_index cells.now at)) (refusal reason.Empty 0) }
{
    byte_in(cells[at]).ok_or(refused(Reason::Empty, 0))
}

// Puts a byte into the cell at a place, if it is empty.
pub fn fill(cells: &mut [u16], at: usize, byte: u8) -> Result<(), Fault>
    requires { at < length cells.old }
    ensures value { Filling cells.old at byte result cells.new }
{
    if byte_in(cells[at]).is_some() {
        return Err(refused(Reason::Filled, 0));
    }
    cells[at] = u16::from(byte);
    Ok(())
}
