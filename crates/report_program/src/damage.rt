// Bytes that are damaged, to show what a refusal says.
ghost use Rattle.std.specs.Prelude.{◌≡◌, IfOk, slice_set};

use std::alloc::{AllocError, Global};

// A copy with another byte at one place; the same bytes where there is no such place.
pub fn with_byte(heap: Global, bytes: &[u8], at: usize, byte: u8) -> Result<Vec<u8>, AllocError>
    ensures value { IfOk result (λ v. v.items ≡ slice_set bytes.now at byte) }
{
    let mut copy = bytes.to_vec(heap)?;
    if let Some(place) = copy.get_mut(at) {
        *place = byte;
    }
    Ok(copy)
}
