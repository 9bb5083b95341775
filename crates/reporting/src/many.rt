// A number of things with their noun.
use std::fmt;

#[derive(Clone, Copy)]
pub struct Many<'a> {
    pub count: i64,
    pub noun: &'a str,
}

impl<'a> fmt::Display for Many<'a> {
    fn fmt<W: fmt::Write>(&self, f: &mut fmt::Formatter<W>) -> fmt::Result {
        let Many { count, noun } = *self;
        match count {
            1 => write!(f, "1 {noun}"),
            _ => write!(f, "{count} {noun}s"),
        }
    }
}
