// Trees taken apart: what a branch brings into scope, and has leave it.
ghost use Rattle.std.specs.Prelude.{◌≡◌, ◌≤◌};
ghost use Rattle.checker.specs.Contexts.{parted, unparted};

use super::{Context, Location, Rule};
use crate::conditions::parts_of;
use crate::kind::Kind;
use crate::names::enter_names;
use packed::Constructor;

// A tree of a constructor in region `home`, whose parts are variables from x on, and whose subtrees lie at l and behind.
#[derive(Clone, Copy)]
pub struct Parts<'a> {
    pub home: Option<u8>,
    pub form: &'a Constructor,
    pub x: u8,
    pub l: u8,
}

impl Context {
    // The parts of a tree come into scope.
    pub fn part(&mut self, parts: Parts)
        requires { (parts.form.now.fields.integers ≤ 4) × (parts.form.now.fields.subtrees ≤ 4) }
        ensures after { self.new ≡ parted self.old parts.entry.home parts.entry.form.now parts.entry.x parts.entry.l }
    {
        let Parts { home, form, x, l } = parts;
        let first = usize::from(x);
        let integers = usize::from(form.fields.integers);
        let subtrees = usize::from(form.fields.subtrees);
        let types = form.fields.types;
        enter_names(
            &mut self.variables,
            first,
            integers,
            |_| Some(Kind::Integer),
        );
        // (`as` loses nothing: j is below 4.)
        enter_names(&mut self.variables, first + integers, subtrees, |j| {
            Some(Kind::Tree {
                of: types[j],
                at: u16::from(l) + j as u16,
            })
        });
        let location = Location {
            region: home,
            rule: Rule::Free,
        };
        enter_names(
            &mut self.locations,
            usize::from(l),
            subtrees,
            |_| Some(location),
        );
    }

    // They leave it.
    pub fn unpart(&mut self, parts: Parts)
        ensures after { self.new ≡ unparted self.old parts.entry.home parts.entry.form.now parts.entry.x parts.entry.l }
    {
        let Parts { home, form, x, l } = parts;
        let subtrees = form.fields.subtrees;
        enter_names(&mut self.variables, usize::from(x), parts_of(form), |_| {
            None
        });
        enter_names(
            &mut self.locations,
            usize::from(l),
            usize::from(subtrees),
            |_| None,
        );
        self.progress.shut(home, u16::from(l), subtrees);
    }
}
