// Decoding: sixteen bytes into the row that they spell.
ghost use Rattle.std.specs.Prelude.{◌≡◌, ◌≤◌, length, Some};
ghost use Rattle.table.specs.Encoding.{row_bytes};
ghost use Rattle.table.specs.Rows.{closed, construct_of, operands_of, row_of};

use crate::row::Row;

// The kind, and fifteen bytes for the operands.
const ROW_BYTES: usize = 16;

// The row, if only 0 stands behind its operands: so a row has one encoding.
fn closed_row(row: Row, rest: &[u8]) -> Option<Row>
    ensures { result ≡ closed row rest.now }
{
    rest.iter().all(|&b| b == 0).then_some(row)
}

// (A kind's number stands beside its row, here and in encoding.rt: names for them would repeat those of Row. The length stands in
// three contracts: an array of fifteen, in its place, is not split by patterns with a rest in a form that is proved.)

// The row of this kind, from the fifteen bytes behind the kind: its operands by name, and what stands behind them.
fn by_kind(kind: u8, operands: &[u8]) -> Option<Row>
    requires { length operands.now ≡ 15 }
    ensures { result ≡ operands_of kind operands.now }
{
    match (kind, operands) {
        (0, &[x, ref rest @ ..]) => closed_row(Row::Variable { x }, rest),
        (1, &[a, b, c, d, e, f, g, h, ref rest @ ..]) => {
            let value = i64::from_le_bytes([a, b, c, d, e, f, g, h]);
            closed_row(Row::Number { value }, rest)
        }
        (2, &[x, y, ref rest @ ..]) => closed_row(Row::Sum { x, y }, rest),
        (3, &[x, y, ref rest @ ..]) => closed_row(Row::Difference { x, y }, rest),
        (4, &[r, low, high, ref rest @ ..]) => {
            let room = u16::from_le_bytes([low, high]);
            closed_row(Row::Region { r, room }, rest)
        }
        (5, &[l, r, ref rest @ ..]) => closed_row(Row::Start { l, r }, rest),
        (6, &[l, m, k, ref rest @ ..]) => closed_row(Row::Past { l, m, k }, rest),
        (7, &[l, m, t, ref rest @ ..]) => closed_row(Row::After { l, m, t }, rest),
        _ => by_later_kind(kind, operands),
    }
}

// The construct with these operands.
fn construct(operands: &[u8]) -> Option<Row>
    requires { length operands.now ≡ 15 }
    ensures { result ≡ construct_of operands.now }
{
    let &[form, l, v0, v1, v2, v3, v4, v5, v6, v7, ref rest @ ..] = operands else {
        return None;
    };
    let row = Row::Construct {
        form,
        l,
        v0,
        v1,
        v2,
        v3,
        v4,
        v5,
        v6,
        v7,
    };
    closed_row(row, rest)
}

// The same for the kinds from that of `Construct` on.
fn by_later_kind(kind: u8, operands: &[u8]) -> Option<Row>
    requires late { 8 ≤ kind }
    requires whole { length operands.now ≡ 15 }
    ensures { result ≡ operands_of kind operands.now }
{
    match (kind, operands) {
        (8, _) => construct(operands),
        (9, &[x, kind, l, low, high, ref rest @ ..]) => {
            let body = u16::from_le_bytes([low, high]);
            closed_row(Row::Let { x, kind, l, body }, rest)
        }
        (10, &[x, y, low, high, ref rest @ ..]) => {
            let other = u16::from_le_bytes([low, high]);
            closed_row(Row::Test { x, y, other }, rest)
        }
        (11, &[f, l, v0, v1, v2, v3, ref rest @ ..]) => closed_row(
            Row::Call {
                f,
                l,
                v0,
                v1,
                v2,
                v3,
            },
            rest,
        ),
        (12, &[x, ref rest @ ..]) => closed_row(Row::Case { x }, rest),
        (13, &[form, x0, l0, low, high, ref rest @ ..]) => {
            let next = u16::from_le_bytes([low, high]);
            closed_row(Row::Branch { form, x0, l0, next }, rest)
        }
        _ => None,
    }
}

// The row that the bytes spell, if they are sixteen and spell one; the row's encoding is then these bytes.
pub fn decode(bytes: &[u8]) -> Option<Row>
    ensures value { result ≡ row_of bytes.now }
    ensures back { (x : Row) → result ≡ Some x → row_bytes x ≡ bytes.now }
{
    if bytes.len() != ROW_BYTES {
        return None;
    }
    let [kind, operands @ ..] = bytes else {
        return None;
    };
    by_kind(*kind, operands)
}
