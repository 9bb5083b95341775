// The first record of a section whose numbers have no meaning.
ghost use Rattle.std.specs.Prelude.{◌≡◌, ℕ, ◌^◌, ◌<◌, ◌≤◌, Bool};
ghost use Rattle.table.specs.Meaning.{first_unfair, Judged, record_at};

use crate::record::Record;
use crate::records::Records;
use packed::{Fault, Reason};

// Whether each record of a section that starts at `start` describes a fair item, or the first that does not.
pub fn all_fair<R: Record, F: Fn(usize, R) -> bool>(
    records: &Records<R>,
    start: usize,
    is_fair: F,
) -> Result<(), Fault>
    requires few { (start < 2 ^ 63) × (records.now.count ≤ 65535) }
    requires callable { (i : ℕ) (x : R) → F.pre is_fair i x }
    ensures value { (fair : ℕ → Bool) → Judged (record_at R.WIDTH R.item records.now.bytes.now) (F.post is_fair) fair records.now.count → result ≡ first_unfair fair start R.WIDTH 0 records.now.count }
{
    // By number, since it says where the record starts that is named.
    for i in 0..records.len() {
        let fair = records.get(i).is_some_and(|record| is_fair(i, record));
        Fault::unless(fair, Reason::Meaning, 2, start + i * R::WIDTH)?;
    }
    Ok(())
}
