// Layer 1: where the sections lie, and whether bytes and counts fit.
ghost use Rattle.std.specs.Prelude.{◌≡◌, ◌+◌, ◌-◌, ◌≤◌, length};
ghost use Rattle.packed.specs.declared.fault.Reason.TheVariants as reason;
ghost use Rattle.packed.specs.Forms.{total};
ghost use Rattle.packed.specs.Faults.{given};
ghost use Rattle.table.specs.Sections.{section_of, sections_of, counts_of, in_range, layout_of};

use crate::function::Function;
use crate::record::Record;
use crate::row::Row;
use crate::section::{Layout, Section};
use packed::{Fault, Fields, Reason};

// Where the records of the section lie whose count stands at `at`.
pub fn read_section<R: Record>(bytes: &[u8], at: usize) -> Result<Section, Fault>
    ensures value { result ≡ section_of R.WIDTH bytes.now at }
{
    let Some(&[low, high]) = bytes.get(at..).and_then(|rest| rest.first_chunk::<2>()) else {
        return Err(Fault::new(Reason::BytesEnd, 1, at));
    };
    let count = usize::from(u16::from_le_bytes([low, high]));
    let start = at + 2;
    let whole = (bytes.len() - start) / R::WIDTH;
    if count > whole {
        return Err(Fault::new(Reason::BytesEnd, 1, start + whole * R::WIDTH));
    }
    Ok(Section {
        start,
        count,
        end: start + count * R::WIDTH,
    })
}

// The four sections, one behind the other, or where the bytes end too soon.
fn sections(bytes: &[u8]) -> Result<Layout, Fault>
    ensures value { result ≡ sections_of bytes.now }
{
    Fault::unless(!bytes.is_empty(), Reason::BytesEnd, 1, 0)?;
    let types = read_section::<u8>(bytes, 1)?;
    let constructors = read_section::<Fields>(bytes, types.end)?;
    let functions = read_section::<Function>(bytes, constructors.end)?;
    let rows = read_section::<Row>(bytes, functions.end)?;
    Ok(Layout {
        types,
        constructors,
        functions,
        rows,
    })
}

// How many constructors the type bytes add up to.
fn sum(sizes: &[u8]) -> usize
    requires { length sizes.now ≤ 65535 }
    ensures value { result ≡ total sizes.now }
{
    sizes.iter().map(|size| usize::from(*size)).sum()
}

// Nothing where a condition on a section's count holds, or else a fault: a count stands two bytes before its records.
fn fair_count(condition: bool, section: &Section) -> Result<(), Fault>
    ensures value { result ≡ given condition reason.Count 1 (section.now.start - 2) }
{
    Fault::unless(condition, Reason::Count, 1, section.start.saturating_sub(2))
}

// Whether a section has at least one record, and at most `most`.
fn in_limit(section: &Section, most: usize) -> Result<(), Fault>
    ensures value { result ≡ given (in_range 1 section.now.count most) reason.Count 1 (section.now.start - 2) }
{
    fair_count((1..=most).contains(&section.count), section)
}

// Whether each count is within its limit, and the constructors as many as the type bytes say.
fn counts(bytes: &[u8], layout: &Layout) -> Result<(), Fault>
    requires within { layout.now.types.start ≤ layout.now.types.end }
    requires inside { layout.now.types.end ≤ length bytes.now }
    requires few { layout.now.types.end ≤ layout.now.types.start + 65535 }
    ensures value { result ≡ counts_of bytes.now layout.now }
{
    in_limit(&layout.types, 16)?;
    let said = sum(layout.types.within(bytes));
    let constructors = &layout.constructors;
    fair_count(said == constructors.count && said <= 64, constructors)?;
    in_limit(&layout.functions, 32)?;
    in_limit(&layout.rows, 1024)
}

// Layer 1: the sections of a table whose bytes and counts fit.
pub fn layout(bytes: &[u8]) -> Result<Layout, Fault>
    ensures value { result ≡ layout_of bytes.now }
{
    let layout = sections(bytes)?;
    Fault::unless(
        bytes.len() <= layout.rows.end,
        Reason::BytesBehind,
        1,
        layout.rows.end,
    )?;
    counts(bytes, &layout)?;
    Ok(layout)
}
