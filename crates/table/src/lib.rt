// The program table: bytes to sections, records and rows whose form is known to be right, or the first fault.
#![tactic(auto)]

mod decoding;
mod encoding;
mod function;
mod functions;
mod judge;
mod layout;
mod links;
mod meaning;
mod order;
mod parts;
mod reading;
mod record;
mod records;
mod row;
mod rows;
mod section;
mod sections;
mod table;
mod writing;

pub use decoding::decode;
pub use function::Function;
pub use functions::Functions;
pub use links::Links;
pub use order::out_of_order;
pub use reading::read;
pub use row::Row;
pub use rows::Rows;
pub use section::{Layout, Section};
pub use table::Table;
pub use writing::write;
