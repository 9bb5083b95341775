// Why a line of a program's input is refused, and how that is written.
ghost use Rattle.std.specs.Prelude.{◌≡◌};
ghost use Rattle.words.specs.declared.refusal.Refusal.TheVariants.{Faulty, NoMemory};

use packed::Fault;
use std::alloc::AllocError;
use std::fmt;

#[derive(Clone, Copy, Debug, PartialEq, Eq)]
pub enum Refusal {
    // what the line gives has this fault first
    Faulty(Fault),
    // the line is no command
    Bad,
    // nothing is known of the line
    NoMemory(AllocError),
}

impl From<Fault> for Refusal {
    ghost from_gives = { λ f r. r ≡ Faulty f };

    fn from(first: Fault) -> Refusal {
        Refusal::Faulty(first)
    }
}

impl From<AllocError> for Refusal {
    ghost from_gives = { λ e r. r ≡ NoMemory e };

    fn from(no_memory: AllocError) -> Refusal {
        Refusal::NoMemory(no_memory)
    }
}

impl fmt::Display for Refusal {
    fn fmt<W: fmt::Write>(&self, f: &mut fmt::Formatter<W>) -> fmt::Result {
        match self {
            Refusal::Faulty(fault) => {
                let number = fault.number();
                let layer = fault.layer;
                let place = fault.place;
                write!(f, "fault {number} {layer} {place}")
            }
            Refusal::Bad => write!(f, "bad"),
            Refusal::NoMemory(_) => write!(f, "out of memory"),
        }
    }
}
