// Kinds as tables write them, and kinds compared.
ghost use Rattle.std.specs.Prelude.{◌≡◌, Some};
ghost use Rattle.checker.specs.Contexts.{kind_of, same_kind, lies_within, lies_at};
ghost use Rattle.checker.specs.Conditions.{place_of};

use super::{INTEGER, Kind};
use crate::names::is_among;

impl Kind {
    // The kind that a table writes as `t`, with the location where a tree of it lies.
    pub fn of(t: u8, l: u16) -> Kind
        ensures value { result ≡ kind_of t l }
    {
        if t == INTEGER {
            Kind::Integer
        } else {
            Kind::Tree { of: t, at: l }
        }
    }

    // Whether two kinds are the same, wherever trees lie.
    pub fn is_same(self, other: Kind) -> bool
        ensures value { result ≡ same_kind self other }
    {
        match (self, other) {
            (Kind::Integer, Kind::Integer) => true,
            (Kind::Tree { of, .. }, Kind::Tree { of: t, .. }) => of == t,
            _ => false,
        }
    }

    // Whether it is of the kind that a table writes as `t`, wherever a tree lies.
    pub fn is_of(self, t: u8) -> bool
        ensures value { result ≡ same_kind self (kind_of t 0) }
    {
        match self {
            Kind::Integer => t == INTEGER,
            Kind::Tree { of, .. } => (t != INTEGER) & (of == t),
        }
    }

    // Where a tree lies.
    pub fn place(self) -> Option<u16>
        ensures value { result ≡ place_of (Some self) }
    {
        match self {
            Kind::Integer => None,
            Kind::Tree { at, .. } => Some(at),
        }
    }

    // Whether it is a tree at one of `count` locations from l on.
    pub fn lies_within(self, l: u16, count: u8) -> bool
        ensures value { result ≡ lies_within self l count }
    {
        self.place().is_some_and(|at| is_among(at, l, count))
    }

    // Whether it is an integer, or a tree at l.
    pub fn lies_at(self, l: u16) -> bool
        ensures value { result ≡ lies_at self l }
    {
        self.place().is_none_or(|at| at == l)
    }
}
