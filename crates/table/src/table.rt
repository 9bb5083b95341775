// A table that was read: bytes that are known to be one, with their sections and shapes.
ghost use Rattle.std.specs.Prelude.{◌≡◌, [], ◌∷◌};
ghost use Rattle.packed.specs.Forms.{numbered};
ghost use Rattle.packed.specs.Shaped.{forms_of, sizes_of};
ghost use Rattle.table.specs.Table.{accepted, constructors_in, numbers_of, sizes_in, table_of};

use crate::section::Layout;
use packed::Shapes;

#[derive(Clone, Copy)]
pub struct Table<'a> {
    bytes: &'a [u8],
    layout: Layout,
    shapes: Shapes,
    ghost read: { accepted (table_of bytes.now) ≡ layout ∷ [] },
    ghost sized: { sizes_of shapes ≡ sizes_in bytes.now layout },
    ghost shaped: { numbers_of (forms_of shapes) ≡ numbers_of (numbered 0 (sizes_in bytes.now layout) (constructors_in bytes.now layout)) },
}

mod fill;
