// pack TABLE TYPE BUFFER NODES: a tree's nodes into its bytes.
ghost use Rattle.std.specs.Prelude.{◌≡◌, IfSome};
ghost use Rattle.localtool.specs.Answers.{pack_reply, pack_reply_for, reply_in};
ghost use Rattle.localtool.specs.Programs.{held};

use crate::answer::Answer;
use crate::program::program_answer;
use crate::request::Request;
use checker::Checked;
use packed::Node;
use std::alloc::Global;
use words::{Refusal, nodes_written};

// The nodes, packed into a buffer with as many places as the request says.
// (`unpacked` takes the same steps over other types: a trait for both calls is no plainer.)
fn packed(
    heap: Global,
    checked: &Checked,
    request: &Request,
    nodes: &[Node],
) -> Result<Answer, Refusal>
    ensures value { IfSome (reply_in result) (λ r. r ≡ pack_reply_for (held checked.now.table) request.now.ty request.now.room nodes.now) }
{
    let mut bytes = vec![in heap; 0; request.room]?;
    let long = checked.pack(request.ty, nodes, bytes.as_mut_slice())?;
    bytes.truncate(long);
    Ok(Answer::Packed(bytes))
}

// `nodes_written` by its name alone gets no proof here: another crate's function is passed in a closure.
pub fn pack_answer(heap: Global, operands: &[u8]) -> Result<Answer, Refusal>
    ensures value { IfSome (reply_in result) (λ r. r ≡ pack_reply operands.now) }
{
    program_answer(
        heap,
        operands,
        |heap, word| nodes_written(heap, word),
        packed,
    )
}
