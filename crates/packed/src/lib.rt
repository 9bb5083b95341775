// Packed trees: the shapes of a program's types, nodes, and pack and unpack between nodes and bytes.
#![tactic(auto)]

mod bytes;
mod constructor;
mod fault;
mod head;
mod node;
mod nodes;
mod packing;
mod reader;
mod shapes;
mod unpacking;
mod worked;

pub use constructor::{Constructor, Fields, Limit};
pub use fault::{Fault, Reason, refused};
pub use node::Node;
pub use packing::pack;
pub use shapes::Shapes;
pub use unpacking::unpack;
pub use worked::worked_examples;
