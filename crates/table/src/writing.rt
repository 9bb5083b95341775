// Writing: a whole table from its records.
ghost use Rattle.std.specs.Prelude.{◌≡◌, refl, ℕ, ◌+◌, ◌*◌, ◌<◌, ◌≤◌, List, ◌++◌, length, nat_le, take, drop, Some, Ok};
ghost use Rattle.std.specs.List.{slice_get};
ghost use Rattle.packed.specs.declared.fault.Reason.TheVariants as reason;
ghost use Rattle.packed.specs.Buffers.{Front};
ghost use Rattle.packed.specs.Faults.{given};
ghost use Rattle.packed.specs.Packing.{filled};
ghost use Rattle.packed.specs.Trees.{low as bytes_of_word};
ghost use Rattle.table.specs.Encoding.{row_bytes};
ghost use Rattle.table.specs.Meaning.{fields_of, function_of};
ghost use Rattle.table.specs.Rows.{row_of};
ghost use Rattle.table.specs.Writing.{fields_bytes, function_bytes, ReadsBack, section_bytes, spelt, table_bytes, write_of};

use crate::function::Function;
use crate::record::Record;
use crate::row::Row;
use packed::{Fault, Fields, Reason, refused};

// Whether a section's count fits its word; a refusal has the section's number as its place.
fn fits_a_word(count: usize, section: usize) -> Result<(), Fault>
    ensures value { result ≡ given (nat_le count 65535) reason.Count 4 section }
{
    let fits = count <= usize::from(u16::MAX);
    fits.then_some(()).ok_or(refused(Reason::Count, section))
}

// Writes bytes from `at` on.
fn put(out: &mut [u8], at: usize, bytes: &[u8])
    requires { at + length bytes.now ≤ length out.old }
    ensures after { (word old : List ℕ) → Front word old at out.old → Front (word ++ bytes.now) old (at + length bytes.now) out.new }
{
    out[at..at + bytes.len()].copy_from_slice(bytes);
}

// Writes a count in a word.
// (`as` loses nothing: writers ask for `≤ 65535`, since a word handed on would be a second length beside its slice.)
fn put_count(out: &mut [u8], at: usize, count: usize)
    requires room { at + 2 ≤ length out.old }
    requires few { count ≤ 65535 }
    ensures after { (word old : List ℕ) → Front word old at out.old → Front (word ++ bytes_of_word 2 count) old (at + 2) out.new }
{
    put(out, at, &(count as u16).to_le_bytes());
}

// A record that can be written: its bytes, which describe it.
// (N beside WIDTH: an array's length cannot be a trait's constant.)
pub trait Spelled<const N: usize>: Record {
    ghost spell: { Self → List ℕ };

    // its bytes describe it
    ghost back: { Self → Type 0 };

    fn spelled(&self) -> [u8; N]
        ensures value { result ≡ spell self.now }
        ensures back { back self.now };

    ghost wide: { N ≡ Self.WIDTH };
}

impl Spelled<6> for Fields {
    ghost spell = { fields_bytes };

    ghost back = { λ f. fields_of (fields_bytes f) ≡ f };

    ghost wide = { refl };

    fn spelled(&self) -> [u8; 6] {
        let [a, b, c, d] = self.types;
        [self.integers, self.subtrees, a, b, c, d]
    }
}

impl Spelled<8> for Function {
    ghost spell = { function_bytes };

    ghost back = { λ f. function_of (function_bytes f) ≡ f };

    ghost wide = { refl };

    fn spelled(&self) -> [u8; 8] {
        let [a, b, c, d] = self.kinds;
        let [low, high] = self.first.to_le_bytes();
        [self.parameters, a, b, c, d, self.result, low, high]
    }
}

impl Spelled<16> for Row {
    ghost spell = { row_bytes };

    ghost back = { λ r. row_of (row_bytes r) ≡ Some r };

    ghost wide = { refl };

    fn spelled(&self) -> [u8; 16] {
        self.encode()
    }
}

// Writes records one behind the other, from `at` on.
fn put_records<const N: usize, T: Spelled<N>>(records: &[T], out: &mut [u8], at: usize)
    requires few { length records.now ≤ 65535 }
    requires room { at + length records.now * N ≤ length out.old }
    ensures after { (word old : List ℕ) → Front word old at out.old → Front (word ++ spelt T.Spelled.spell records.now) old (at + length records.now * N) out.new }
    ensures back { (k : ℕ) (x : T) → slice_get records.now k ≡ Some x → T.Spelled.back x }
{
    // By place: behind chunks of a buffer that is lent to be written a proof knows its length alone.
    for (i, record) in records.iter().enumerate() {
        put(out, at + i * N, &record.spelled());
    }
}

// Writes a section, its count first, from `at` on, and answers where it ends.
fn put_section<const N: usize, T: Spelled<N>>(records: &[T], out: &mut [u8], at: usize) -> usize
    requires few { length records.now ≤ 65535 }
    requires room { at + 2 + length records.now * N ≤ length out.old }
    ensures end { result ≡ at + 2 + length records.now * N }
    ensures after { (word old : List ℕ) → Front word old at out.old → Front (word ++ section_bytes T.Spelled.spell records.now) old result out.new }
    ensures back { (k : ℕ) (x : T) → slice_get records.now k ≡ Some x → T.Spelled.back x }
{
    put_count(out, at, records.len());
    put_records(records, out, at + 2);
    at + 2 + records.len() * N
}

// Writes a table at the front. (Sizes are bytes already, and are copied at once, where a section is written record by record.)
fn put_table(sizes: &[u8], fields: &[Fields], functions: &[Function], rows: &[Row], out: &mut [u8])
    requires types { length sizes.now ≤ 65535 }
    requires constructors { length fields.now ≤ 65535 }
    requires declared { length functions.now ≤ 65535 }
    requires described { length rows.now ≤ 65535 }
    requires room { 9 + length sizes.now + length fields.now * 6 + length functions.now * 8 + length rows.now * 16 ≤ length out.old }
    ensures after { out.new ≡ table_bytes sizes.now fields.now functions.now rows.now ++ drop (length (table_bytes sizes.now fields.now functions.now rows.now)) out.old }
    ensures back { ReadsBack sizes.now fields.now functions.now rows.now (table_bytes sizes.now fields.now functions.now rows.now) }
{
    put(out, 0, &[1]);
    put_count(out, 1, sizes.len());
    put(out, 3, sizes);
    let constructors_end = put_section(fields, out, 3 + sizes.len());
    let functions_end = put_section(functions, out, constructors_end);
    put_section(rows, out, functions_end);
}

// Writes the table with these records into the front of `out`, and answers how many bytes it took.
pub fn write(
    sizes: &[u8],
    fields: &[Fields],
    functions: &[Function],
    rows: &[Row],
    out: &mut [u8],
) -> Result<usize, Fault>
    ensures value { result ≡ write_of sizes.now fields.now functions.now rows.now (length out.old) }
    ensures after { out.new ≡ filled result (table_bytes sizes.now fields.now functions.now rows.now) out.old }
    ensures back { (n : ℕ) → result ≡ Ok n → ReadsBack sizes.now fields.now functions.now rows.now (take n out.new) }
{
    fits_a_word(sizes.len(), 0)?;
    fits_a_word(fields.len(), 1)?;
    fits_a_word(functions.len(), 2)?;
    fits_a_word(rows.len(), 3)?;
    let length = 9 + sizes.len() + fields.len() * 6 + functions.len() * 8 + rows.len() * 16;
    if length > out.len() {
        return Err(refused(Reason::ShortBuffer, 0));
    }
    put_table(sizes, fields, functions, rows, out);
    Ok(length)
}
