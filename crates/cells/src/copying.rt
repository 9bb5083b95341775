// Bytes into a store and back, through any store.
ghost use Rattle.std.specs.Prelude.{◌≡◌, ℕ, ◌<◌, map, length, None, Ok, MatchResult};
ghost use Rattle.std.specs.List.{range_with_len};
ghost use Rattle.cells.specs.Calls.{answer, open_refusal, get_refusal, byte_at};
ghost use Rattle.cells.specs.Copying.{after_hold, copy_refusal, after_copy, gotten, Copied};

use crate::store::Store;
use packed::{Fault, Reason, refused};

// Opens a region for the bytes and puts them there; answers its number.
pub fn hold<S: Store>(store: &mut S, bytes: &[u8]) -> Result<usize, Fault>
    ensures value { result ≡ answer (open_refusal (S.Store.meaning store.old) (length bytes.now)) (length (S.Store.meaning store.old).regions) }
    ensures after { S.Store.meaning store.new ≡ after_hold (S.Store.meaning store.old) bytes.now }
    ensures keeps { S.Store.kept store.old store.new }
{
    let number = store.open(bytes.len())?;
    for (i, &byte) in bytes.iter().enumerate() {
        store.put(number, i, byte)?;
    }
    Ok(number)
}

// Gets the first cells of a region, which are filled.
fn fetch<S: Store>(store: &S, region: usize, back: &mut [u8]) -> Result<(), Fault>
    requires { (i : ℕ) → i < length back.old → get_refusal (S.Store.meaning store.now) region i ≡ None }
    ensures value { result ≡ Ok tt }
    ensures after { back.new ≡ map (byte_at (S.Store.meaning store.now) region) (range_with_len 0 (length back.old)) }
{
    for (i, byte) in back.iter_mut().enumerate() {
        *byte = store.get(region, i)?;
    }
    Ok(())
}

// Holds bytes in a region of their own and gets them back into a buffer's front: opens, puts and gets. Refuses a buffer
// that is too short before it opens.
pub fn copy_through<S: Store>(store: &mut S, bytes: &[u8], back: &mut [u8]) -> Result<usize, Fault>
    ensures value { result ≡ answer (copy_refusal (S.Store.meaning store.old) bytes.now back.old) (length (S.Store.meaning store.old).regions) }
    ensures after { S.Store.meaning store.new ≡ after_copy (S.Store.meaning store.old) bytes.now back.old }
    ensures filled { back.new ≡ gotten result bytes.now back.old }
    ensures laws { MatchResult result (λ k. Copied (S.Store.meaning store.old) (S.Store.meaning store.new) k bytes.now) (λ _. S.Store.meaning store.new ≡ S.Store.meaning store.old) }
    ensures keeps { S.Store.kept store.old store.new }
{
    let n = bytes.len();
    if back.len() < n {
        return Err(refused(Reason::ShortBuffer, 0));
    }
    let number = hold(store, bytes)?;
    fetch(store, number, &mut back[..n])?;
    Ok(number)
}
