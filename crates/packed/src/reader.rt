// Reading a tree by descent, a subtree at a time, over words of whatever shows heads.
ghost use Rattle.std.specs.Prelude.{◌≡◌, ℕ, ◌<◌, ◌≤◌, cond, List, [], ◌∷◌, ◌++◌, length, drop, nat_lt, Ok, Err, Result};
ghost use Rattle.packed.specs.declared.constructor.Constructor.{Constructor};
ghost use Rattle.packed.specs.Forms.{subtrees};
ghost use Rattle.packed.specs.Shaped.{forms_of};
ghost use Rattle.packed.specs.Descent.{onward, place_of, head_place, reach, Beyond, HeadWithin};

use crate::constructor::Constructor;
use crate::head::Head;
use crate::shapes::Shapes;

// What a word is made of in which heads stand: bytes, or nodes.
pub trait Symbol: Sized {
    // what reading a word answers from a place on, with trees of these types due
    ghost scan: { List Self → List Constructor → List ℕ → ℕ → Result (Unit {0}) ℕ };

    // the symbol at a place is one that its type can hold
    ghost fits: { List Self → ℕ → Type 0 };

    // The head at `at` of a tree of type `ty`, or the first place that cannot go on it.
    fn head(shapes: &Shapes, word: &[Self], at: usize, ty: u8) -> Result<Head, usize>
        requires { at ≤ length word.now }
        ensures within { HeadWithin result at (length word.now) }
        ensures goes { (due : List ℕ) → scan word.now (forms_of shapes.now) (ty ∷ due) at ≡ onward result (λ h. scan word.now (forms_of shapes.now) (subtrees h.constructor ++ due) h.end) }
        ensures seen { (i : ℕ) → at ≤ i → i < head_place result → fits word.now i };

    // with nothing due, a reading is at its end, or at the first symbol too many
    ghost ends: { (word : List Self) (g : List Constructor) (at : ℕ) → scan word g [] at ≡ cond (nat_lt at (length word)) (Err at) (Ok tt) };
}

// Where the tree of type `ty` that starts at `at` ends, or the first place that cannot go on it. (Shapes and word go on as they
// are: a struct of two references would be made for this one descent.)
fn tree<S: Symbol>(shapes: &Shapes, word: &[S], at: usize, ty: u8) -> Result<usize, usize>
    requires { at ≤ length word.now }
    ensures within { Beyond result at (length word.now) }
    ensures goes { (due : List ℕ) → S.Symbol.scan word.now (forms_of shapes.now) (ty ∷ due) at ≡ onward result (λ e. S.Symbol.scan word.now (forms_of shapes.now) due e) }
    ensures seen { (i : ℕ) → at ≤ i → i < place_of result → S.Symbol.fits word.now i }
{
    let head = S::head(shapes, word, at, ty)?;
    let fields = &head.constructor.fields;
    let mut end = head.end;
    for due in &fields.types[..usize::from(fields.subtrees)] {
        end = tree(shapes, word, end, *due)?;
    }
    Ok(end)
}

// Whether the whole word is exactly one tree of the type, or the first place that cannot go on it.
pub fn whole<S: Symbol>(shapes: &Shapes, word: &[S], ty: u8) -> Result<(), usize>
    ensures value { result ≡ S.Symbol.scan word.now (forms_of shapes.now) (ty ∷ []) 0 }
    ensures seen { (i : ℕ) → i < reach result (length word.now) → S.Symbol.fits word.now i }
{
    let end = tree(shapes, word, 0, ty)?;
    if end < word.len() {
        return Err(end);
    }
    Ok(())
}
