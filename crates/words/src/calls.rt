// Calls of a store that are written as text: a letter and numbers with colons between them, one call behind the other with
// commas between them.
ghost use Rattle.std.specs.Prelude.{◌≡◌, IfOk, vec_items};
ghost use Rattle.std.specs.Option.{option_map};
ghost use Rattle.words.specs.Calls.{put_spelled, get_spelled, call_spelled, calls_written};

use crate::call::Call;
use crate::numbers::{byte, room};
use crate::pieces::each_piece;
use crate::text::split_once;
use std::alloc::{AllocError, Global};

fn put_of(text: &[u8]) -> Option<Call>
    ensures value { result ≡ put_spelled text.now }
{
    let (region, rest) = split_once(text, b':')?;
    let (cell, filling) = split_once(rest, b':')?;
    Some(Call::Put(room(region)?, room(cell)?, byte(filling)?))
}

fn get_of(text: &[u8]) -> Option<Call>
    ensures value { result ≡ get_spelled text.now }
{
    let (region, cell) = split_once(text, b':')?;
    Some(Call::Get(room(region)?, room(cell)?))
}

// The call that a text writes, if it writes one.
fn call_of(text: &[u8]) -> Option<Call>
    ensures value { result ≡ call_spelled text.now }
{
    match text {
        [b'o', b':', cells @ ..] => room(cells).map(Call::Open),
        [b'p', b':', numbers @ ..] => put_of(numbers),
        [b'g', b':', numbers @ ..] => get_of(numbers),
        [b'm', b':', region @ ..] => room(region).map(Call::Room),
        [b'f'] => Some(Call::Free),
        [b'n'] => Some(Call::Grain),
        [b'r'] => Some(Call::Regions),
        _ => None,
    }
}

// The calls that a word of a command writes, or none where a piece of it is no call.
pub fn calls_written(heap: Global, word: &[u8]) -> Result<Option<Vec<Call>>, AllocError>
    ensures value { IfOk result (λ o. option_map vec_items o ≡ calls_written word.now) }
{
    each_piece(heap, word, call_of)
}
