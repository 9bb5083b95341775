// Long lists of generated calls on both stores, against a model that is written apart: one line a store.
#![tactic(auto)]

ghost use Rattle.std.specs.Prelude.{◌<◌};

mod answer;
mod draw;
mod layout;
mod model;
mod tally;

use answer::make;
use cells::Store;
use draw::Draw;
use layout::Layout;
use model::Model;
use std::alloc::{AllocError, Global};
use stores::{Flat, Paged};
use tally::Tally;

// The lists are made for each of these lengths of a buffer in turn.
const LENGTHS: [usize; 10] = [0, 1, 63, 64, 65, 700, 4096, 65535, 65536, 70000];

const ROUNDS: usize = 15;

const CALLS: usize = 1000;

// What the buffer holds before a store is made on it, which is no empty cell.
const BEFORE: u16 = 7;

// One list of calls.
fn play<S: Store>(
    store: &mut S,
    model: &mut Model,
    seed: u64,
    tally: &mut Tally,
) -> Result<(), AllocError> {
    let mut draw = Draw::seeded(seed);
    for _ in 0..CALLS {
        let call = draw.call();
        let wanted = model.make(call)?;
        tally.note(make(store, call), wanted);
    }
    Ok(())
}

// One list on a new buffer; the numbers that a store does not use stay as they were.
fn play_list(
    heap: Global,
    layout: Layout,
    long: usize,
    seed: u64,
    tally: &mut Tally,
) -> Result<bool, AllocError> {
    let mut cells = vec![in heap; BEFORE; long]?;
    let mut model = Model::new(heap, layout, long);
    let lent = cells.as_mut_slice();
    match layout {
        Layout::Flat => play(&mut Flat::new(lent), &mut model, seed, tally)?,
        Layout::Paged => play(&mut Paged::new(lent), &mut model, seed, tally)?,
    }
    let mut behind = cells.iter().skip(layout.total(long));
    Ok(behind.all(|&number| number == BEFORE))
}

// One list for each length.
fn play_round(
    heap: Global,
    layout: Layout,
    round: usize,
    tally: &mut Tally,
) -> Result<bool, AllocError>
    requires { round < 15 }
{
    let mut kept = true;
    for (i, &long) in LENGTHS.iter().enumerate() {
        // `as`: a usize fits into 64 bits.
        let seed = (round * LENGTHS.len() + i) as u64;
        kept &= play_list(heap, layout, long, seed, tally)?;
    }
    Ok(kept)
}

fn play_all(heap: Global, layout: Layout, tally: &mut Tally) -> Result<bool, AllocError> {
    let mut kept = true;
    for round in 0..ROUNDS {
        kept &= play_round(heap, layout, round, tally)?;
    }
    Ok(kept)
}

fn show(rt: &HostRuntime, layout: Layout) -> anyhow::Result<()> {
    let mut tally = Tally::new();
    let kept = play_all(rt.alloc(), layout, &mut tally)?;
    let name = layout.name();
    let whole = if tally.is_whole() {
        "all reached"
    } else {
        "NOT all reached"
    };
    let rest = if kept { "untouched" } else { "TOUCHED" };
    let Tally { alike, other, .. } = tally;
    println!(rt;
        "{name}: {alike} calls answered as the model does, {other} otherwise; 61 to 65 {whole}; numbers behind the cells {rest}"
    )?;
    Ok(())
}

fn run(rt: &HostRuntime) -> anyhow::Result<()> {
    show(rt, Layout::Flat)?;
    show(rt, Layout::Paged)
}

fn main(rt: HostRuntime) -> anyhow::Result<()> {
    run(&rt)
}
