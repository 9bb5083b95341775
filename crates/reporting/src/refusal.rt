// A refusal in words.
ghost use Rattle.std.specs.Prelude.{◌≡◌, ℕ, List};
ghost use Rattle.packed.specs.Faults.{number_of};

use packed::{Fault, Reason};
use std::fmt;
use std::marker::PhantomData;

// The words of a program.
pub trait Words {
    // What each number of refusal says.
    ghost says: { ℕ → List ℕ };

    // What the program cannot do without.
    fn subject() -> &'static str;

    // Why something is refused.
    fn sentence(reason: Reason) -> &'static str
        ensures value { result.now ≡ says (number_of reason) };
}

// What was tried, and why it was refused, in the words W. (Two types: trouble always has a fault.)
#[derive(Clone, Copy)]
pub struct Refusal<'a, W> {
    pub tried: &'a str,
    pub fault: Fault,
    words: PhantomData<W>,
}

impl<'a, W> Refusal<'a, W> {
    pub fn new(tried: &'a str, fault: Fault) -> Refusal<'a, W>
        ensures tried { result.tried.now ≡ tried.now }
        ensures fault { result.fault ≡ fault }
    {
        Refusal {
            tried,
            fault,
            words: PhantomData,
        }
    }
}

impl<'a, V: Words> fmt::Display for Refusal<'a, V> {
    fn fmt<W: fmt::Write>(&self, f: &mut fmt::Formatter<W>) -> fmt::Result {
        let tried = self.tried;
        let number = self.fault.number();
        let Fault {
            reason,
            layer,
            place,
        } = self.fault;
        let why = V::sentence(reason);
        write!(
            f,
            "{tried}: refused with {number}, layer {layer}, place {place}: {why}"
        )
    }
}

// What was tried, and whether it was refused.
#[derive(Clone, Copy)]
pub struct Verdict<'a, W> {
    pub tried: &'a str,
    pub fault: Option<Fault>,
    words: PhantomData<W>,
}

impl<'a, W> Verdict<'a, W> {
    pub fn new(tried: &'a str, fault: Option<Fault>) -> Verdict<'a, W>
        ensures tried { result.tried.now ≡ tried.now }
        ensures fault { result.fault ≡ fault }
    {
        Verdict {
            tried,
            fault,
            words: PhantomData,
        }
    }
}

impl<'a, V: Words> fmt::Display for Verdict<'a, V> {
    fn fmt<W: fmt::Write>(&self, f: &mut fmt::Formatter<W>) -> fmt::Result {
        let tried = self.tried;
        match self.fault {
            Some(fault) => write!(f, "{}", Refusal::<V>::new(tried, fault)),
            None => write!(f, "{tried}: accepted"),
        }
    }
}
