// store flat|paged CELLS OPS: calls of a new store.
ghost use Rattle.std.specs.Prelude.{◌≡◌, IfOk, IfSome};
ghost use Rattle.localtool.specs.Answers.{reply_in, store_reply};
ghost use Rattle.localtool.specs.StoreCalls.{answers_from, new_of};

use crate::answer::{Answer, Told};
use crate::calling::answers;
use crate::layout::Layout;
use packed::Fault;
use std::alloc::{AllocError, Global};
use stores::{Flat, Paged};
use words::{Call, Refusal, calls_written, room, split_once};

// What a store is made of. It clears the numbers that are lent to it, so any would do.
const LENT: u16 = 0;

// The answers of a new store of this layout.
fn answers_of(
    heap: Global,
    layout: Layout,
    cells: usize,
    calls: &[Call],
) -> Result<Vec<Result<Told, Fault>>, AllocError>
    ensures value { IfOk result (λ v. v.items ≡ answers_from (new_of layout cells) calls.now) }
{
    let mut lent = vec![in heap; LENT; cells]?;
    match layout {
        Layout::Flat => answers(heap, &mut Flat::new(lent.as_mut_slice()), calls),
        Layout::Paged => answers(heap, &mut Paged::new(lent.as_mut_slice()), calls),
    }
}

pub fn store_answer(heap: Global, operands: &[u8]) -> Result<Answer, Refusal>
    ensures value { IfSome (reply_in result) (λ r. r ≡ store_reply operands.now) }
{
    let (layout, rest) = Layout::read(operands).ok_or(Refusal::Bad)?;
    let (cells, word) = split_once(rest, b' ').ok_or(Refusal::Bad)?;
    let cells = room(cells).ok_or(Refusal::Bad)?;
    let calls = calls_written(heap, word)?.ok_or(Refusal::Bad)?;
    let told = answers_of(heap, layout, cells, &calls)?;
    Ok(Answer::Told(told))
}
