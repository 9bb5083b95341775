// A function, as its record describes it.

// How many parameters it has, the kinds of four, with 255 behind those it has, the kind of its result and its first row: numbers and
// an array, as the record's bytes have them, since any bytes may stand there before they are judged.
#[derive(Clone, Copy, Debug, PartialEq, Eq)]
pub struct Function {
    pub parameters: u8,
    pub kinds: [u8; 4],
    pub result: u8,
    pub first: u16,
}
