// The words of the program: how refusals and trouble are written.
ghost use Rattle.report_program.specs.Refusing.{sentence_of};

use packed::Reason;
use reporting::Words;

pub struct ProgramWords;

impl Words for ProgramWords {
    ghost says = { sentence_of };

    fn subject() -> &'static str {
        "the program"
    }

    fn sentence(reason: Reason) -> &'static str {
        match reason {
            Reason::BytesEnd => "the bytes end before the rows do",
            Reason::BytesBehind => "there are bytes behind the rows",
            Reason::Count => "a section has too few or too many records",
            Reason::Meaning => "a number here has no meaning",
            Reason::RowOrder => "the rows are out of order here",
            Reason::Scope => "a name that the row uses is not in scope, or one that it binds is",
            Reason::Kind => {
                "a value, or the branches of a case, are not of the kind that the row asks for"
            }
            Reason::LocationRule => "a location is named where nothing may be written next",
            Reason::Unwritten => "a tree is not written where it has to stand",
            Reason::ChildLeft => "what follows leaves the location empty, or gives what lies there",
            Reason::ArmsDiffer => "two arms do not end alike",
            Reason::ShortBuffer => "the buffer is too short",
            Reason::OpenRefused => "the store has no room for as many cells",
            _ => "this is refused elsewhere",
        }
    }
}

// Why the program is not shown.
pub type Trouble = reporting::Trouble<ProgramWords>;
