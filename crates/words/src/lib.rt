// The words of commands: text cut at separators, and numbers, bytes, nodes and calls written as text; and why a line is refused.
#![tactic(auto)]

mod call;
mod calls;
mod hex;
mod nodes;
mod numbers;
mod pieces;
mod refusal;
mod text;

pub use call::Call;
pub use calls::calls_written;
pub use hex::bytes_written;
pub use nodes::nodes_written;
pub use numbers::{byte, room};
pub use refusal::Refusal;
pub use text::{behind_name, head, split_once, tail};
