// Bytes as symbols in which heads stand.
ghost use Rattle.std.specs.Prelude.{◌≡◌, ◌+◌, ◌*◌, ◌<◌, ◌≤◌, length, drop, slice_index};
ghost use Rattle.packed.specs.Ends.{bytes_end};
ghost use Rattle.packed.specs.Reading.{left, read_bytes};

use crate::head::Head;
use crate::reader::Symbol;
use crate::shapes::Shapes;

// How many bytes a head of k integers has.
pub fn head_len(k: u8) -> usize
    ensures value { result ≡ 1 + 8 * k }
    ensures bound { result ≤ 2041 }
{
    1 + 8 * usize::from(k)
}

impl Symbol for u8 {
    ghost scan = { λ bs g due at. read_bytes g (left 0 due) (drop at bs) at };

    // true of every byte: what is known of one that was read, for the laws of refusals
    ghost fits = { λ bs i. slice_index bs i < 256 };

    ghost ends = { bytes_end };

    fn head(shapes: &Shapes, word: &[u8], at: usize, ty: u8) -> Result<Head, usize> {
        let tag = *word.get(at).ok_or(at)?;
        let constructor = shapes.form(ty, tag).ok_or(at)?;
        let length = head_len(constructor.fields.integers);
        if word.len() - at < length {
            return Err(word.len());
        }
        Ok(Head {
            constructor,
            end: at + length,
        })
    }
}
