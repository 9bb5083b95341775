// The program of a command: the one place that judges a table for a call, and what pack and unpack have in common.
ghost use Rattle.std.specs.Prelude.{◌≡◌, ℕ, List, Option, IfOk, IfSome, vec_items};
ghost use Rattle.std.specs.Option.{option_map};
ghost use Rattle.localtool.specs.Answers.{Reply, asked_reply, reply_in};
ghost use Rattle.localtool.specs.Programs.{Types, held, judged_of, shown};

use crate::answer::Answer;
use crate::request::Request;
use checker::Checked;
use packed::Fault;
use std::alloc::{AllocError, Global};
use words::{Refusal, bytes_written};

// The program that a table is, if the check accepts it.
fn judged(table: &[u8]) -> Result<Checked<'_>, Fault>
    ensures value { shown result ≡ judged_of table.now }
{
    let mut checked = Checked::built_in();
    checked.check(table)?;
    Ok(checked)
}

// Answers what the operands ask of a program: `read` reads the last operand, and `make` answers from what it reads.
pub fn program_answer<T, R, M>(
    heap: Global,
    operands: &[u8],
    read: R,
    make: M,
) -> Result<Answer, Refusal>
where
    T: Drop,
    R: Fn(Global, &[u8]) -> Result<Option<Vec<T>>, AllocError>,
    M: Fn(Global, &Checked, &Request, &[T]) -> Result<Answer, Refusal>,
    requires reads { R.IsAlwaysCallable read }
    requires makes { M.IsAlwaysCallable make }
    ensures value { (meant : List ℕ → Option (List T)) (reply : Types → ℕ → ℕ → List T → Reply) → ((h : _) (w : _) (r : _) → R.post read h w r → IfOk r (λ o. option_map vec_items o ≡ meant w.now)) → ((h : _) (c : _) (q : _) (xs : _) (r : _) → M.post make h c q xs r → IfSome (reply_in r) (λ x. x ≡ reply (held c.now.table) q.now.ty q.now.room xs.now)) → IfSome (reply_in result) (λ x. x ≡ asked_reply meant reply operands.now) }
{
    let request = Request::of(operands).ok_or(Refusal::Bad)?;
    let table = bytes_written(heap, request.table)?.ok_or(Refusal::Bad)?;
    let given = read(heap, request.last)?.ok_or(Refusal::Bad)?;
    let checked = judged(&table)?;
    make(heap, &checked, &request, &given)
}
