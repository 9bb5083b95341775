// How rows and days are written, and the report's words for refusals and trouble.
ghost use Rattle.std.specs.Prelude.{◌≡◌};
ghost use Rattle.report.specs.Refusing.{sentence_of};

use crate::age::Age;
use crate::row::Row;
use packed::Reason;
use reporting::{Many, Words};
use std::fmt;

// A number of days.
fn days(count: i64) -> Many<'static>
    ensures count { result.count ≡ count }
{
    Many { count, noun: "day" }
}

impl fmt::Display for Row {
    fn fmt<W: fmt::Write>(&self, f: &mut fmt::Formatter<W>) -> fmt::Result {
        let folder = self.folder;
        let entry = self.entry;
        match self.age {
            Age::Kept { ago, left } => {
                let ago = days(ago);
                let left = days(left);
                write!(
                    f,
                    "folder {folder}, entry {entry}: deleted {ago} ago, {left} left to bring it back"
                )
            }
            Age::Gone { since } => {
                let since = days(since);
                write!(
                    f,
                    "folder {folder}, entry {entry}: gone for good since {since}"
                )
            }
        }
    }
}

// The words of the report.
pub struct ReportWords;

impl Words for ReportWords {
    ghost says = { sentence_of };

    fn subject() -> &'static str {
        "the list"
    }

    fn sentence(reason: Reason) -> &'static str {
        match reason {
            Reason::Kind => "there is no such type",
            Reason::NotOneTree => "this is not exactly one tree of the type",
            Reason::ShortBuffer => "the buffer is too short",
            _ => "this is refused elsewhere",
        }
    }
}

// Why there is no report.
pub type Trouble = reporting::Trouble<ReportWords>;
