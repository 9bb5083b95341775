// Bytes that are held in a region of a store and got back.
ghost use Rattle.std.specs.Prelude.{◌≡◌, length, IfOk};
ghost use Rattle.cells.specs.Calls.{answer, open_refusal};
ghost use Rattle.report_program.specs.Storing.{region_told};

use crate::show::Trouble;
use crate::stored::Stored;
use cells::{Store, copy_through};
use packed::Fault;
use std::alloc::Global;
use stores::{Flat, Paged};

// How a store lays its cells.
#[derive(Clone, Copy)]
pub enum Layout {
    Flat,
    Paged,
}

// What a store is made of. It clears the numbers that are lent to it, so any would do.
const LENT: u16 = 0;

// Copies bytes through any store into a vector of their length: what comes back is what was put, or a fault where the store
// does not open a region for them.
fn copied<S: Store>(store: &mut S, bytes: &[u8], mut back: Vec<u8>) -> Result<Stored, Fault>
    requires { length back.items ≡ length bytes.now }
    ensures opened { region_told result ≡ answer (open_refusal (S.Store.meaning store.old) (length bytes.now)) (length (S.Store.meaning store.old).regions) }
    ensures back { IfOk result (λ s. s.back.items ≡ bytes.now) }
    ensures before { IfOk result (λ s. s.before ≡ (S.Store.meaning store.old).free) }
    ensures after { IfOk result (λ s. s.after ≡ (S.Store.meaning store.new).free) }
{
    let before = store.free();
    let region = copy_through(store, bytes, back.as_mut_slice())?;
    let after = store.free();
    Ok(Stored {
        region,
        before,
        after,
        back,
    })
}

// The same, where the vector is made too.
pub fn stored_in<S: Store>(heap: Global, store: &mut S, bytes: &[u8]) -> Result<Stored, Trouble>
    ensures back { IfOk result (λ s. s.back.items ≡ bytes.now) }
    ensures before { IfOk result (λ s. s.before ≡ (S.Store.meaning store.old).free) }
    ensures after { IfOk result (λ s. s.after ≡ (S.Store.meaning store.new).free) }
{
    let back = vec![in heap; 0; bytes.len()]?;
    Ok(copied(store, bytes, back)?)
}

// The same, through a new store of a layout with so many cells.
pub fn stored_as(
    heap: Global,
    layout: Layout,
    cells: usize,
    bytes: &[u8],
) -> Result<Stored, Trouble>
    ensures back { IfOk result (λ s. s.back.items ≡ bytes.now) }
{
    let mut lent = vec![in heap; LENT; cells]?;
    match layout {
        Layout::Flat => stored_in(heap, &mut Flat::new(lent.as_mut_slice()), bytes),
        Layout::Paged => stored_in(heap, &mut Paged::new(lent.as_mut_slice()), bytes),
    }
}
