// The answer to a command: whether a table's form is right.
ghost use Rattle.std.specs.Prelude.{◌≡◌, IfSome};
ghost use Rattle.table_cases.specs.Answers.{answer_in, Answers};

use std::alloc::Global;
use table::read;
use words::{Refusal, bytes_written};

// Answers a line: `check WORD`, or no command.
pub fn answer_to(heap: Global, line: &str) -> Result<(), Refusal>
    ensures value { IfSome (answer_in result) (Answers line.now) }
{
    let word = line.strip_prefix("check ").ok_or(Refusal::Bad)?;
    let bytes = bytes_written(heap, word.as_bytes())?.ok_or(Refusal::Bad)?;
    read(bytes.as_slice())?;
    Ok(())
}
