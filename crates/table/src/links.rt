// What the machine asks of rows again and again, found once: each row's taker, and each branch's case.

// As many links as there may be rows.
const ROOM: usize = 1024;

// For each row the innermost let whose bound part holds it, and for each branch the case that it is of. (Arrays: no heap here.)
#[derive(Clone, Copy)]
pub struct Links {
    takers: [Option<u16>; ROOM],
    cases: [Option<u16>; ROOM],
}

mod make;
