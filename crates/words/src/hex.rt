// Bytes that are written as text, two hexadecimal digits to a byte.
ghost use Rattle.std.specs.Prelude.{◌≡◌, IfOk, vec_items};
ghost use Rattle.std.specs.Option.{option_map};
ghost use Rattle.words.specs.Hex.{byte_of, spelled, written};

use std::alloc::{AllocError, Global};

// The byte of two digits, the high one first. (`as`: the check alone does not find that `try_from` succeeds here.)
fn byte(high: u8, low: u8) -> Option<u8>
    ensures value { result ≡ byte_of high low }
{
    let h = char::from(high).to_digit(16)?;
    let l = char::from(low).to_digit(16)?;
    Some((h * 16 + l) as u8)
}

// The bytes that a text spells, or none where its length is odd or a character is no digit.
fn bytes_of(heap: Global, text: &[u8]) -> Result<Option<Vec<u8>>, AllocError>
    ensures value { IfOk result (λ o. option_map vec_items o ≡ spelled text.now) }
{
    let (pairs, []) = text.as_chunks::<2>() else {
        return Ok(None);
    };
    let mut bytes = Vec::new(heap);
    for &[high, low] in pairs {
        let Some(b) = byte(high, low) else {
            return Ok(None);
        };
        bytes.push(b)?;
    }
    Ok(Some(bytes))
}

// The bytes that a word of a command writes. No bytes are written `-`, so that the word is never empty.
pub fn bytes_written(heap: Global, word: &[u8]) -> Result<Option<Vec<u8>>, AllocError>
    ensures value { IfOk result (λ o. option_map vec_items o ≡ written word.now) }
{
    match word {
        [] => Ok(None),
        [b'-'] => Ok(Some(Vec::new(heap))),
        _ => bytes_of(heap, word),
    }
}
