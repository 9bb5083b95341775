// How a store lays its regions out.
ghost use Rattle.std.specs.Prelude.{◌≡◌, MatchOption};
ghost use Rattle.localtool.specs.Answers.{Bad, store_reply, store_reply_for};

use words::behind_name;

#[derive(Clone, Copy)]
pub enum Layout {
    Flat,
    Paged,
}

impl Layout {
    // The layout that the operands begin with, and those behind it.
    pub fn read(operands: &[u8]) -> Option<(Layout, &[u8])>
        ensures value { MatchOption result (store_reply operands.now ≡ Bad) (λ p. store_reply operands.now ≡ store_reply_for p.0 p.1.now) }
    {
        if let Some(rest) = behind_name(operands, b"flat ") {
            return Some((Layout::Flat, rest));
        }
        let rest = behind_name(operands, b"paged ")?;
        Some((Layout::Paged, rest))
    }
}
