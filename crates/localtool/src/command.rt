// A line and its answer, by the name that the line begins with.
ghost use Rattle.std.specs.Prelude.{◌≡◌, IfSome};
ghost use Rattle.localtool.specs.Answers.{reply_in, reply_to};

use crate::answer::Answer;
use crate::checking::check_answer;
use crate::packing::pack_answer;
use crate::storing::store_answer;
use crate::unpacking::unpack_answer;
use std::alloc::Global;
use words::{Refusal, behind_name};

// Name by name, as the definition asks: a match on what stands before the first blank would be no shorter.
pub fn answer_to(heap: Global, line: &[u8]) -> Result<Answer, Refusal>
    ensures value { IfSome (reply_in result) (λ r. r ≡ reply_to line.now) }
{
    if let Some(operands) = behind_name(line, b"check ") {
        return check_answer(heap, operands);
    }
    if let Some(operands) = behind_name(line, b"pack ") {
        return pack_answer(heap, operands);
    }
    if let Some(operands) = behind_name(line, b"unpack ") {
        return unpack_answer(heap, operands);
    }
    if let Some(operands) = behind_name(line, b"store ") {
        return store_answer(heap, operands);
    }
    Err(Refusal::Bad)
}
