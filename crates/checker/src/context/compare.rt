// Frontiers compared.
ghost use Rattle.std.specs.Prelude.{◌≡◌};
ghost use Rattle.checker.specs.Contexts.{is_at, is_within};

use super::Frontier;
use crate::names::is_among;

// Whether a frontier is location l.
pub fn is_at(frontier: Option<Frontier>, l: u16) -> bool
    ensures value { result ≡ is_at l frontier }
{
    frontier == Some(Frontier::At { l })
}

// Whether a frontier is one of `count` locations from l on.
pub fn is_within(frontier: Option<Frontier>, l: u16, count: u8) -> bool
    ensures value { result ≡ is_within l count frontier }
{
    matches!(frontier, Some(Frontier::At { l: m }) if is_among(m, l, count))
}
