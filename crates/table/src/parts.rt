// What reading a table finds.
use crate::section::Layout;
use packed::Shapes;

// Where its sections lie, and the shapes of its types and constructors.
#[derive(Clone, Copy)]
pub struct Parts {
    pub layout: Layout,
    pub shapes: Shapes,
}
