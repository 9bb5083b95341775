// The types of a list of deleted entries, as shapes.
ghost use Rattle.std.specs.Prelude.{◌≡◌, IfOk, None};
ghost use Rattle.packed.specs.Shaped.{broken, forms_of};
ghost use Rattle.report.specs.Listed.{list_forms};

use packed::{Fields, Limit, Shapes};
use reporting::{END, ENTRY_FIELDS, FOLDER_FIELDS, GONE_FIELDS, KEPT_FIELDS};

// The first number that no type has.
pub const NO_TYPE: u8 = 3;

// How many constructors each type has.
const SIZES: [u8; 3] = [2, 2, 2];

// In the order of the constructors' numbers.
const FIELDS: [Fields; 6] = [
    END,
    FOLDER_FIELDS,
    END,
    ENTRY_FIELDS,
    KEPT_FIELDS,
    GONE_FIELDS,
];

// The shapes of a list of deleted entries, which break no limit.
pub fn list_shapes() -> Result<Shapes, Limit>
    ensures fair { broken result ≡ None }
    ensures value { IfOk result (λ s. (forms_of s ≡ list_forms) × (s.types ≡ 3)) }
{
    Shapes::new(&SIZES, &FIELDS)
}
