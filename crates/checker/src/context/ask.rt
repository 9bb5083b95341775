// What is asked of a context.
ghost use Rattle.std.specs.Prelude.{◌≡◌};
ghost use Rattle.checker.specs.Contexts.{at, is_in, region_of, frontier_in, frontier_at};

use super::{Context, Frontier, Location, Progress};
use crate::kind::Kind;
use crate::names::{is_member, look};

impl Progress {
    // The frontier of a region, if it is in scope.
    pub fn frontier(&self, region: Option<u8>) -> Option<Frontier>
        ensures value { result ≡ frontier_in self.now region }
    {
        region.and_then(|r| look(&self.frontiers, usize::from(r)))
    }

    pub fn is_unwritten(&self, l: u16) -> bool
        ensures value { result ≡ is_in self.now.unwritten l }
    {
        is_member(&self.unwritten, usize::from(l))
    }
}

impl Context {
    // The kind of variable x, if it is in scope.
    pub fn variable(&self, x: u8) -> Option<Kind>
        ensures value { result ≡ at self.now.variables x }
    {
        look(&self.variables, usize::from(x))
    }

    // Location l, if it is in scope.
    pub fn location(&self, l: u16) -> Option<Location>
        ensures value { result ≡ at self.now.locations l }
    {
        look(&self.locations, usize::from(l))
    }

    // The region of location l, if that lies in one with a name.
    pub fn region_of(&self, l: u16) -> Option<u8>
        ensures value { result ≡ region_of self.now l }
    {
        self.location(l).and_then(|location| location.region)
    }

    // The frontier of the region of location l.
    pub fn frontier_at(&self, l: u16) -> Option<Frontier>
        ensures value { result ≡ frontier_at self.now l }
    {
        self.progress.frontier(self.region_of(l))
    }
}
