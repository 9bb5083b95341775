// Two stores over lent numbers: one lays regions one behind another, the other in pages.
#![tactic(auto)]

mod clearing;
mod flat;
mod paged;
mod regions;

pub use flat::Flat;
pub use paged::Paged;
