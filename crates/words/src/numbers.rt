// Numbers that are written as decimal digits.
ghost use Rattle.std.specs.Prelude.{◌≡◌, ◌^◌, ◌≤◌, IfSome};
ghost use Rattle.words.specs.Numbers.{appended_of, natural_of, byte_of, room_of, integer_of};

use crate::text::behind_name;

// A buffer has at most so many places.
const MOST_ROOM: u64 = 1_000_000;

// How far integers reach below 0, and above.
const LOWEST: u64 = 0x8000_0000_0000_0000;

const HIGHEST: u64 = 0x7fff_ffff_ffff_ffff;

// A number with one more digit, if that is one and the number stays within its limit.
fn appended(n: u64, c: u8, limit: u64) -> Option<u64>
    ensures value { result ≡ appended_of limit n c }
    ensures bound { IfSome result (λ m. m ≤ limit) }
{
    let digit = char::from(c).to_digit(10)?;
    let more = n.checked_mul(10)?.checked_add(u64::from(digit))?;
    (more <= limit).then_some(more)
}

// The number that digits write, if it is within the limit. By digit: the library's parse takes a sign too.
fn natural(text: &[u8], limit: u64) -> Option<u64>
    ensures value { result ≡ natural_of limit text.now }
    ensures bound { IfSome result (λ m. m ≤ limit) }
{
    if text.is_empty() {
        return None;
    }
    let mut n = 0;
    for &c in text {
        n = appended(n, c, limit)?;
    }
    Some(n)
}

// A number of one byte.
pub fn byte(text: &[u8]) -> Option<u8>
    ensures value { result ≡ byte_of text.now }
{
    u8::try_from(natural(text, 255)?).ok()
}

// How many places a buffer has.
pub fn room(text: &[u8]) -> Option<usize>
    ensures value { result ≡ room_of text.now }
{
    usize::try_from(natural(text, MOST_ROOM)?).ok()
}

// An integer of 64 bits.
pub(crate) fn integer(text: &[u8]) -> Option<i64>
    ensures value { result ≡ integer_of text.now }
{
    match behind_name(text, b"-") {
        Some(digits) => i64::try_from(-i128::from(natural(digits, LOWEST)?)).ok(),
        None => i64::try_from(natural(text, HIGHEST)?).ok(),
    }
}
