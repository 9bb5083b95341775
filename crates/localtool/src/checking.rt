// check TABLE: whether a program may run.
ghost use Rattle.std.specs.Prelude.{◌≡◌, IfSome};
ghost use Rattle.localtool.specs.Answers.{check_reply, reply_in};

use crate::answer::Answer;
use checker::Checked;
use std::alloc::Global;
use words::{Refusal, bytes_written};

// (Not by `judged`: its fault may come from the table's form too, and the reply is the check's alone.)
pub fn check_answer(heap: Global, operands: &[u8]) -> Result<Answer, Refusal>
    ensures value { IfSome (reply_in result) (λ r. r ≡ check_reply operands.now) }
{
    let table = bytes_written(heap, operands)?.ok_or(Refusal::Bad)?;
    Checked::built_in().check(&table)?;
    Ok(Answer::Right)
}
