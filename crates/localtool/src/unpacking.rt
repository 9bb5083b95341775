// unpack TABLE TYPE BUFFER BYTES: a tree's bytes into its nodes.
ghost use Rattle.std.specs.Prelude.{◌≡◌, IfSome};
ghost use Rattle.localtool.specs.Answers.{reply_in, unpack_reply, unpack_reply_for};
ghost use Rattle.localtool.specs.Programs.{held};

use crate::answer::Answer;
use crate::program::program_answer;
use crate::request::Request;
use checker::Checked;
use packed::Node;
use std::alloc::Global;
use words::{Refusal, bytes_written};

const BLANK: Node = Node {
    constructor: 0,
    integers: [0; 4],
};

// The bytes, unpacked into a buffer with as many places as the request says.
fn unpacked(
    heap: Global,
    checked: &Checked,
    request: &Request,
    bytes: &[u8],
) -> Result<Answer, Refusal>
    ensures value { IfSome (reply_in result) (λ r. r ≡ unpack_reply_for (held checked.now.table) request.now.ty request.now.room bytes.now) }
{
    let mut nodes = vec![in heap; BLANK; request.room]?;
    let count = checked.unpack(request.ty, bytes, nodes.as_mut_slice())?;
    nodes.truncate(count);
    Ok(Answer::Unpacked(nodes))
}

// `bytes_written` by its name alone gets no proof here: another crate's function is passed in a closure.
pub fn unpack_answer(heap: Global, operands: &[u8]) -> Result<Answer, Refusal>
    ensures value { IfSome (reply_in result) (λ r. r ≡ unpack_reply operands.now) }
{
    program_answer(
        heap,
        operands,
        |heap, word| bytes_written(heap, word),
        unpacked,
    )
}
