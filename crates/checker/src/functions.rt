// Functions: the context that a body starts in, and what it has to end with.
ghost use Rattle.std.specs.Prelude.{◌≡◌, eqb, if◌then◌else◌, Some};
ghost use Rattle.checker.specs.declared.context.Rule.TheVariants as rule;
ghost use Rattle.checker.specs.Contexts.{blank, parameter, placed, begun};
ghost use Rattle.checker.specs.Described.{program_of};
ghost use Rattle.checker.specs.Verdict.{body_of, verdict_of, ended, done_with};

use crate::arguments::number_at;
use crate::context::compare::is_at;
use crate::context::{Context, LOCATIONS, Location, Progress, REGIONS, Rule, VARIABLES};
use crate::descent::Descent;
use crate::fault::ask;
use crate::kind::{INTEGER, Kind};
use packed::{Fault, Reason};
use table::Function;

// A context with nothing in scope.
fn empty() -> Context
    ensures value { result ≡ blank }
{
    Context {
        variables: [None; VARIABLES],
        locations: [None; LOCATIONS],
        progress: Progress {
            frontiers: [None; REGIONS],
            unwritten: [false; LOCATIONS],
        },
    }
}

// Where a function's tree result goes, if it gives a tree.
fn with_result(res: u8) -> Context
    ensures value { result ≡ (if eqb res INTEGER then blank else placed blank 0 (record { region = Some 0; rule = rule.Free })) }
{
    let mut cx = empty();
    if res != INTEGER {
        let location = Location {
            region: Some(0),
            rule: Rule::Free,
        };
        cx.place(0, location);
    }
    cx
}

impl Context {
    // Parameter j comes into scope.
    fn take(&mut self, j: u8, t: u8)
        ensures after { self.new ≡ parameter self.old j t }
    {
        let l = u16::from(j) + 1;
        if t != INTEGER {
            let location = Location {
                region: None,
                rule: Rule::Free,
            };
            self.set_location(l, Some(location));
        }
        self.set_variable(j, Some(Kind::of(t, l)));
    }
}

// The context of a function's body. (By number: a parameter past the kinds is of type 0, as a table says nowhere here that
// there are at most four.)
fn begin(function: &Function) -> Context
    ensures value { result ≡ begun function.now }
{
    let mut cx = with_result(function.result);
    for j in 0..function.parameters {
        cx.take(j, number_at(&function.kinds, usize::from(j)));
    }
    cx
}

impl<'a> Descent<'a> {
    // Whether a body that gave this ended as its function says. (A method, as `ended` is of a program: promised of each
    // program in a plain function, `body` was not proved.)
    fn is_ended(&self, function: &Function, kind: Kind, cx: &Context) -> bool
        ensures value { result ≡ ended (program_of self.now) function.now (done_with kind cx.now) }
    {
        (function.result == INTEGER) | (kind.lies_at(0) & is_at(cx.progress.frontier(Some(0)), 0))
    }

    // A function's body, and what it gives.
    fn body(&self, function: &Function) -> Result<(), Fault>
        ensures value { result ≡ body_of (program_of self.now) function.now }
    {
        let first = usize::from(function.first);
        let mut cx = begin(function);
        let kind = self.term(first, &mut cx)?;
        ask(kind.is_of(function.result), Reason::Kind, first)?;
        ask(self.is_ended(function, kind, &cx), Reason::Unwritten, first)
    }

    // All functions, in order. (By number: functions are read where they lie, and an iterator of our own for one loop is no
    // plainer.)
    pub fn bodies(&self) -> Result<(), Fault>
        ensures value { result ≡ verdict_of (program_of self.now) }
    {
        for function in (0..self.functions.len()).filter_map(|i| self.functions.get(i)) {
            self.body(&function)?;
        }
        Ok(())
    }
}
