// Tests of packed trees, as tables: round trips, refusals, the limits of shapes, and a deep tree.
#![tactic(auto)]

#[cfg(test)]
mod common;
#[cfg(test)]
mod deep;
#[cfg(test)]
mod limits;
#[cfg(test)]
mod numbers;
#[cfg(test)]
mod refusals;
#[cfg(test)]
mod round_trips;
