// Variables that a row names: whether they are in scope, what they hold, and where trees among them lie.
ghost use Rattle.std.specs.Prelude.{◌≡◌, ◌<◌, length, slice_index};
ghost use Rattle.checker.specs.Contexts.{used, at};
ghost use Rattle.checker.specs.Conditions.{has_kind, all_used, all_have, any_tree, has_rule, ruled_place, chained, both_integers};

use crate::context::{Context, Rule};
use crate::kind::{INTEGER, Kind};

// The number at a place, 0 past the last: how many a call names is what its function says.
pub fn number_at(numbers: &[u8], i: usize) -> u8
    ensures value { result ≡ slice_index numbers.now i }
{
    numbers.get(i).copied().unwrap_or(0)
}

impl Context {
    // Whether variable x is in scope.
    pub fn is_used(&self, x: u8) -> bool
        ensures value { result ≡ used self.now.variables x }
    {
        self.variable(x).is_some()
    }

    // Whether location l is in scope.
    pub fn is_located(&self, l: u16) -> bool
        ensures value { result ≡ used self.now.locations l }
    {
        self.location(l).is_some()
    }

    // Whether variable x is in scope and of the kind that tables write as `t`.
    fn is_of_kind(&self, x: u8, t: u8) -> bool
        ensures value { result ≡ has_kind (at self.now.variables x) t }
    {
        self.variable(x).is_some_and(|kind| kind.is_of(t))
    }

    pub fn are_integers(&self, x: u8, y: u8) -> bool
        ensures value { result ≡ both_integers self.now x y }
    {
        self.is_of_kind(x, INTEGER) & self.is_of_kind(y, INTEGER)
    }

    // Whether the first `count` of these variables are in scope. (By place, here and below, and not over a part of the slice: a
    // call's function may say more than its row names.)
    pub fn are_used(&self, variables: &[u8], count: usize) -> bool
        ensures value { result ≡ all_used self.now variables.now 0 count }
    {
        (0..count).all(|i| self.is_used(number_at(variables, i)))
    }

    // Whether `count` of these variables, from place `from` on, have these kinds.
    pub fn have_kinds(&self, variables: &[u8], from: usize, kinds: &[u8], count: usize) -> bool
        requires { (from < 256) × (count < 256) }
        ensures value { result ≡ all_have self.now variables.now from kinds.now 0 count }
    {
        (0..count).all(|j| self.is_of_kind(number_at(variables, from + j), number_at(kinds, j)))
    }

    // Whether a variable in scope is a tree of type t at location m.
    pub fn has_tree(&self, t: u8, m: u16) -> bool
        ensures value { result ≡ any_tree t m self.now.variables }
    {
        self.variables.contains(&Some(Kind::Tree { of: t, at: m }))
    }

    // Whether location m is in scope and has this rule.
    fn has_rule(&self, m: u16, rule: Rule) -> bool
        ensures value { result ≡ has_rule self.now m rule }
    {
        self.location(m)
            .is_some_and(|location| location.rule == rule)
    }

    // The location of a variable's tree, if it has this rule.
    fn ruled_place(&self, x: u8, rule: Rule) -> Option<u16>
        ensures value { result ≡ ruled_place self.now rule (at self.now.variables x) }
    {
        let m = self.variable(x)?.place()?;
        self.has_rule(m, rule).then_some(m)
    }

    // The last location of trees that these variables hold, where the first has this rule and each next one is after the one
    // before; l where there is none.
    pub fn last_of_chain(&self, rule: Rule, l: u16, trees: &[u8]) -> Option<u16>
        ensures value { result ≡ chained self.now rule l trees.now 0 (length trees.now) }
    {
        let mut due = rule;
        let mut last = l;
        for &x in trees {
            last = self.ruled_place(x, due)?;
            due = Rule::After { m: last };
        }
        Some(last)
    }
}
