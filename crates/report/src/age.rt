// How long ago an entry was deleted, and what that means for bringing it back.
ghost use Rattle.std.specs.Prelude.{◌≡◌};
ghost use Rattle.report.specs.Ages.{age_of, is_kept};

// For so many days a deleted entry can be brought back.
const KEPT_DAYS: u16 = 30;

// Days are held as a node holds them.
#[derive(Clone, Copy)]
pub enum Age {
    // Deleted `ago` days ago, with `left` days to bring it back.
    Kept { ago: i64, left: i64 },
    // Nothing can be had back, since so many days.
    Gone { since: i64 },
}

impl Age {
    // The age of an entry that was deleted `ago` days ago. No From: a number alone does not say which days it counts.
    pub fn of(ago: u16) -> Age
        ensures value { result ≡ age_of ago }
    {
        if ago < KEPT_DAYS {
            Age::Kept {
                ago: i64::from(ago),
                left: i64::from(KEPT_DAYS - ago),
            }
        } else {
            Age::Gone {
                since: i64::from(ago - KEPT_DAYS),
            }
        }
    }

    // Whether the entry can still be brought back.
    pub fn is_kept(&self) -> bool
        ensures value { result ≡ is_kept self.now }
    {
        matches!(self, Age::Kept { .. })
    }
}
