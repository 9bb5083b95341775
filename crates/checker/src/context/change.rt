// How a context changes.
ghost use Rattle.std.specs.Prelude.{◌≡◌, true, false, Some, None};
ghost use Rattle.checker.specs.Contexts.{with_variable, with_location, with_frontier, with_unwritten, opened, closed, placed, written, left, shutting};

use super::compare::is_within;
use super::{Context, Frontier, Location, Progress};
use crate::kind::Kind;
use crate::names::enter;

impl Progress {
    // Sets the frontier of a region, if it has a name.
    fn set_frontier(&mut self, region: Option<u8>, frontier: Option<Frontier>)
        ensures after { self.new ≡ with_frontier self.old region frontier }
    {
        if let Some(r) = region {
            enter(&mut self.frontiers, usize::from(r), frontier);
        }
    }

    fn set_unwritten(&mut self, l: u16, is: bool)
        ensures after { self.new ≡ with_unwritten self.old l is }
    {
        enter(&mut self.unwritten, usize::from(l), is);
    }
}

impl Progress {
    // `count` locations from l on leave scope: their region is shut, if its frontier is one of them.
    pub fn shut(&mut self, region: Option<u8>, l: u16, count: u8)
        ensures after { self.new ≡ shutting self.old region l count }
    {
        if is_within(self.frontier(region), l, count) {
            self.set_frontier(region, Some(Frontier::Shut));
        }
    }
}

impl Context {
    pub fn set_variable(&mut self, x: u8, kind: Option<Kind>)
        ensures after { self.new ≡ with_variable self.old x kind }
    {
        enter(&mut self.variables, usize::from(x), kind);
    }

    pub fn set_location(&mut self, l: u16, location: Option<Location>)
        ensures after { self.new ≡ with_location self.old l location }
    {
        enter(&mut self.locations, usize::from(l), location);
    }

    // Region r comes into scope, with nothing written.
    pub fn open(&mut self, r: u8)
        ensures after { self.new ≡ opened self.old r }
    {
        self.progress.set_frontier(Some(r), Some(Frontier::Nothing));
    }

    // Region r leaves scope.
    pub fn close(&mut self, r: u8)
        ensures after { self.new ≡ closed self.old r }
    {
        self.progress.set_frontier(Some(r), None);
    }

    // Location l comes into scope, not yet written, as the frontier of its region.
    pub fn place(&mut self, l: u16, location: Location)
        ensures after { self.new ≡ placed self.old l location }
    {
        self.progress.set_unwritten(l, true);
        self.progress
            .set_frontier(location.region, Some(Frontier::At { l }));
        self.set_location(l, Some(location));
    }

    // The tree at location l is written.
    pub fn write(&mut self, l: u16)
        ensures after { self.new ≡ written self.old l }
    {
        let region = self.region_of(l);
        self.progress.set_unwritten(l, false);
        self.progress.set_frontier(region, Some(Frontier::At { l }));
    }

    // Location l leaves scope.
    pub fn leave(&mut self, l: u16)
        ensures after { self.new ≡ left self.old l }
    {
        let region = self.region_of(l);
        self.progress.shut(region, l, 1);
        self.set_location(l, None);
    }
}
