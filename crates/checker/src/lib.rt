// The check of a program table's types: what it accepts, and the first rule that is broken.
#![tactic(auto)]

mod arguments;
mod checked;
mod conditions;
mod context;
mod descent;
mod fault;
mod functions;
mod kind;
mod names;
mod rows;
mod worked;

pub use checked::Checked;
pub use worked::worked_examples;
