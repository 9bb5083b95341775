// Encoding: a row into its sixteen bytes.
ghost use Rattle.std.specs.Prelude.{◌≡◌, ◌+◌, ◌≤◌, ◌++◌, length, Some};
ghost use Rattle.table.specs.Rows.{row_of};
ghost use Rattle.table.specs.Encoding.{Held, padded, row_bytes};

use crate::row::Row;

// The kind and operands of one byte, then the bytes of a number that takes more, and 0 behind them.
fn sixteen(front: &[u8], number: &[u8]) -> [u8; 16]
    requires { length front.now + length number.now ≤ 16 }
    ensures { result ≡ padded 16 (front.now ++ number.now) }
{
    let mut bytes = [0; 16];
    let (start, rest) = bytes.split_at_mut(front.len());
    start.copy_from_slice(front);
    rest[..number.len()].copy_from_slice(number);
    bytes
}

// The kind, then the operands in the order of the fields. That a row's fields fit their types is known only where they
// are read, so it is promised here.
fn bytes_of(row: Row) -> [u8; 16]
    ensures value { result ≡ row_bytes row }
    ensures held { Held row }
{
    match row {
        Row::Variable { x } => sixteen(&[0, x], &[]),
        Row::Number { value } => sixteen(&[1], &value.to_le_bytes()),
        Row::Sum { x, y } => sixteen(&[2, x, y], &[]),
        Row::Difference { x, y } => sixteen(&[3, x, y], &[]),
        Row::Region { r, room } => sixteen(&[4, r], &room.to_le_bytes()),
        Row::Start { l, r } => sixteen(&[5, l, r], &[]),
        Row::Past { l, m, k } => sixteen(&[6, l, m, k], &[]),
        Row::After { l, m, t } => sixteen(&[7, l, m, t], &[]),
        Row::Construct {
            form,
            l,
            v0,
            v1,
            v2,
            v3,
            v4,
            v5,
            v6,
            v7,
        } => sixteen(&[8, form, l, v0, v1, v2, v3, v4, v5, v6, v7], &[]),
        Row::Let { x, kind, l, body } => sixteen(&[9, x, kind, l], &body.to_le_bytes()),
        Row::Test { x, y, other } => sixteen(&[10, x, y], &other.to_le_bytes()),
        Row::Call {
            f,
            l,
            v0,
            v1,
            v2,
            v3,
        } => sixteen(&[11, f, l, v0, v1, v2, v3], &[]),
        Row::Case { x } => sixteen(&[12, x], &[]),
        Row::Branch { form, x0, l0, next } => sixteen(&[13, form, x0, l0], &next.to_le_bytes()),
    }
}

impl Row {
    // The row's bytes, which decode to the row.
    pub fn encode(&self) -> [u8; 16]
        ensures value { result ≡ row_bytes self.now }
        ensures back { row_of result ≡ Some self.now }
    {
        bytes_of(*self)
    }
}
