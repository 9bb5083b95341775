// Faults of the check: layer 3, at a row.
ghost use Rattle.std.specs.Prelude.{◌≡◌};
ghost use Rattle.checker.specs.Verdict.{asking};
ghost use Rattle.packed.specs.Faults.{found};

use packed::{Fault, Reason};

// The layer of the check.
const LAYER: u8 = 3;

pub fn fault(reason: Reason, row: usize) -> Fault
    ensures value { result ≡ found reason LAYER row }
{
    Fault::new(reason, LAYER, row)
}

// Nothing where a condition holds, or else a fault.
pub fn ask(condition: bool, reason: Reason, row: usize) -> Result<(), Fault>
    ensures value { result ≡ asking condition reason row }
{
    Fault::unless(condition, reason, LAYER, row)
}
