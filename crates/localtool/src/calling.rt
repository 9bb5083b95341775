// Calls made of a store, one after the other.
ghost use Rattle.std.specs.Prelude.{◌≡◌, IfOk};
ghost use Rattle.localtool.specs.StoreCalls.{answer_to, after_call, answers_from};

use crate::answer::Told;
use cells::Store;
use packed::Fault;
use std::alloc::{AllocError, Global};
use words::Call;

// Makes one call. (stores_cases, which is written apart, makes calls of its own.)
fn make<S: Store>(store: &mut S, call: Call) -> Result<Told, Fault>
    ensures value { result ≡ answer_to (S.Store.meaning store.old) call }
    ensures after { S.Store.meaning store.new ≡ after_call (S.Store.meaning store.old) call }
{
    match call {
        Call::Open(cells) => store.open(cells).map(Told::Number),
        Call::Put(region, cell, byte) => store.put(region, cell, byte).map(|()| Told::Done),
        Call::Get(region, cell) => store
            .get(region, cell)
            .map(|byte| Told::Number(usize::from(byte))),
        Call::Free => Ok(Told::Number(store.free())),
        Call::Grain => Ok(Told::Number(store.grain())),
        Call::Regions => Ok(Told::Number(store.regions())),
        Call::Room(region) => store.room(region).map(Told::Number),
    }
}

// What a store of any layout answers to calls, each made of what the calls before it have left.
pub fn answers<S: Store>(
    heap: Global,
    store: &mut S,
    calls: &[Call],
) -> Result<Vec<Result<Told, Fault>>, AllocError>
    ensures value { IfOk result (λ v. v.items ≡ answers_from (S.Store.meaning store.old) calls.now) }
{
    let mut told = Vec::with_capacity(heap, calls.len())?;
    for &call in calls {
        let one = make(store, call);
        told.push(one)?;
    }
    Ok(told)
}
