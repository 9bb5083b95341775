// What a command asks of a program: TABLE TYPE BUFFER, and one operand more.
ghost use Rattle.std.specs.Prelude.{MatchOption};
ghost use Rattle.localtool.specs.Answers.{AsksNothing, Asks};

use words::{byte, room, split_once};

#[derive(Clone, Copy)]
pub struct Request<'a> {
    // the words of the program's table and of the last operand
    pub table: &'a [u8],
    pub last: &'a [u8],
    // a type of the program
    pub ty: u8,
    // how many places a buffer has
    pub room: usize,
}

impl<'a> Request<'a> {
    // What the operands ask, if they are what they should be. (No TryFrom: nobody reads its error.)
    pub fn of(operands: &'a [u8]) -> Option<Request<'a>>
        ensures value { MatchOption result (AsksNothing operands.now) (Asks operands.now) }
    {
        let (table, rest) = split_once(operands, b' ')?;
        let (ty, rest) = split_once(rest, b' ')?;
        let (places, last) = split_once(rest, b' ')?;
        Some(Request {
            table,
            last,
            ty: byte(ty)?,
            room: room(places)?,
        })
    }
}
