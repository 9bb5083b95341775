// A checked program as a client holds it: the built-in one at first, then the last one that was accepted; and its trees.
ghost use Rattle.std.specs.Prelude.{◌≡◌, length, is_ok, if◌then◌else◌, Ok, Err};
ghost use Rattle.packed.specs.Laws.{Judged, Accepts, UnpacksTo, PacksTo};
ghost use Rattle.packed.specs.Trees.{as_node, as_bytes};
ghost use Rattle.packed.specs.Packing.{pack_of, unpack_of, filled, bytes_of as packedBytes, nodes_of};
ghost use Rattle.table.specs.Formed.{Formed};
ghost use Rattle.table.specs.Tabled.{built_in, bytes_of};
ghost use Rattle.checker.specs.Asking.{Worded};
ghost use Rattle.checker.specs.Checking.{Accepted, FirstFault, check_of, program_in, forms_held, types_held};
ghost use Rattle.checker.specs.Laws.{Laws, RuleNamed};

use super::Checked;
use crate::descent::Descent;
use packed::{Fault, Node};
use table::{Layout, Table};

impl<'a> Checked<'a> {
    // The least program: main gives the number 0.
    pub fn built_in() -> Checked<'a>
        ensures value { bytes_of result.table ≡ built_in }
    {
        Checked {
            table: Table::built_in(),
        }
    }

    // Checks a table and holds it from then on, or names its first fault and goes on holding the one that it held.
    pub fn check(&mut self, bytes: &'a [u8]) -> Result<(), Fault>
        ensures value { result ≡ check_of bytes.now }
        ensures after { bytes_of self.new.table ≡ (if is_ok result then bytes.now else bytes_of self.old.table) }
        ensures same { (f : Fault) → result ≡ Err f → self.new ≡ self.old }
        ensures exactly { (result ≡ Ok tt → Accepted bytes.now) × (Accepted bytes.now → result ≡ Ok tt) }
        ensures first { ((f : Fault) → result ≡ Err f → FirstFault bytes.now f) × ((f : Fault) → FirstFault bytes.now f → result ≡ Err f) }
        ensures ruled { (f : Fault) (l : Layout) → result ≡ Err f → Formed bytes.now l → RuleNamed bytes.now l f }
    {
        let mut table = self.table;
        table.read(bytes)?;
        Descent::from(&table).bodies()?;
        *self = Checked { table };
        Ok(())
    }

    // The table, which was accepted.
    pub fn table(&self) -> Table<'a>
        ensures value { result ≡ self.now.table }
        ensures accepted { Accepted (bytes_of result) }
        ensures laws { Laws (program_in (bytes_of result) result.layout) }
        ensures worded { Worded (program_in (bytes_of result) result.layout) }
    {
        self.table
    }

    // Packs the nodes of one tree of type `ty` of the program into the front of `out`, and answers how many bytes it took.
    pub fn pack(&self, ty: u8, nodes: &[Node], out: &mut [u8]) -> Result<usize, Fault>
        ensures value { result ≡ pack_of (forms_held self.now.table) (types_held self.now.table) ty nodes.now (length out.old) }
        ensures after { out.new ≡ filled result (packedBytes (forms_held self.now.table) nodes.now) out.old }
        ensures judged { Judged as_node as_bytes (forms_held self.now.table) (types_held self.now.table) ty nodes.now out.new result }
        ensures accepts { Accepts as_node as_bytes (forms_held self.now.table) (types_held self.now.table) ty nodes.now (length out.old) result }
        ensures back { UnpacksTo (forms_held self.now.table) (types_held self.now.table) ty nodes.now out.new result }
    {
        packed::pack(&self.table.shapes(), ty, nodes, out)
    }

    // Unpacks the bytes of one tree of type `ty` of the program into the front of `out`, and answers how many nodes it has.
    pub fn unpack(&self, ty: u8, bytes: &[u8], out: &mut [Node]) -> Result<usize, Fault>
        ensures value { result ≡ unpack_of (forms_held self.now.table) (types_held self.now.table) ty bytes.now (length out.old) }
        ensures after { out.new ≡ filled result (nodes_of (forms_held self.now.table) 0 bytes.now) out.old }
        ensures judged { Judged as_bytes as_node (forms_held self.now.table) (types_held self.now.table) ty bytes.now out.new result }
        ensures accepts { Accepts as_bytes as_node (forms_held self.now.table) (types_held self.now.table) ty bytes.now (length out.old) result }
        ensures back { PacksTo (forms_held self.now.table) (types_held self.now.table) ty bytes.now out.new result }
    {
        packed::unpack(&self.table.shapes(), ty, bytes, out)
    }
}
