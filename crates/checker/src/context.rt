// What the check keeps while it descends: names in scope, and how far each region is written.
mod ask;
mod change;
pub mod compare;
pub mod parts;

use crate::kind::Kind;

// How a location was got from another one. Those of parameters, results and branches have no rule.
#[derive(Clone, Copy, PartialEq, Eq, Debug)]
pub enum Rule {
    Free,
    Start,
    Past { m: u16, k: u8 },
    After { m: u16 },
}

// A location: the region that it lies in, if that has a name, and its rule.
#[derive(Clone, Copy, PartialEq, Eq, Debug)]
pub struct Location {
    pub region: Option<u8>,
    pub rule: Rule,
}

// How far a region is written: not at all, up to a location, or no more to be written.
#[derive(Clone, Copy, PartialEq, Eq, Debug)]
pub enum Frontier {
    Nothing,
    At { l: u16 },
    Shut,
}

pub const VARIABLES: usize = 32;

pub const LOCATIONS: usize = 32;

pub const REGIONS: usize = 16;

// How far writing has come: the frontier of each region in scope, and the locations that are not written yet.
#[derive(Clone, Copy, PartialEq, Eq, Debug)]
pub struct Progress {
    pub frontiers: [Option<Frontier>; REGIONS],
    pub unwritten: [bool; LOCATIONS],
}

// The kind of each variable in scope, each location in scope, and how far writing has come. (Arrays by name, since the check
// takes no memory beyond its stack.)
#[derive(Clone, Copy, PartialEq, Eq, Debug)]
pub struct Context {
    pub variables: [Option<Kind>; VARIABLES],
    pub locations: [Option<Location>; LOCATIONS],
    pub progress: Progress,
}
