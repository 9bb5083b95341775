// Text of pieces with commas between them, each of which is read alone.
ghost use Rattle.std.specs.Prelude.{◌≡◌, ℕ, List, Option, IfOk, vec_items};
ghost use Rattle.std.specs.Option.{option_map};
ghost use Rattle.words.specs.Text.{each_of, pieces, Reads};

use crate::text::{head, tail};
use std::alloc::{AllocError, Global};

// What the pieces of a text stand for, or none where one stands for nothing.
// No `for` over `split`: where `F` is a parameter too, such a loop gets no proof. (One `split_once` would read and push the last
// piece at a second place.)
pub(crate) fn each_piece<T: Drop, F: Fn(&[u8]) -> Option<T>>(
    heap: Global,
    text: &[u8],
    read: F,
) -> Result<Option<Vec<T>>, AllocError>
    requires { F.IsAlwaysCallable read }
    ensures value { (meant : List ℕ → Option T) → Reads F.Fn read meant → IfOk result (λ o. option_map vec_items o ≡ each_of meant (pieces 44 text.now)) }
{
    let mut all = Vec::new(heap);
    let mut rest = text;
    loop {
        let Some(one) = read(head(rest, b',')) else {
            return Ok(None);
        };
        all.push(one)?;
        let Some(more) = tail(rest, b',') else {
            return Ok(Some(all));
        };
        rest = more;
    }
}
