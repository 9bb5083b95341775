// Which refusals were reached, and how many calls were answered alike.
use crate::answer::{LAYER, PLACE, Refusal};

// The first number of a store's refusals. By number, so that the model tests the numbers too.
const FIRST: u8 = 61;

#[derive(Clone, Copy)]
pub struct Tally {
    pub alike: u32,
    pub other: u32,
    reached: [bool; 5],
}

impl Tally {
    pub fn new() -> Tally {
        Tally {
            alike: 0,
            other: 0,
            reached: [false; 5],
        }
    }

    pub fn note(&mut self, one: Result<usize, Refusal>, two: Result<usize, Refusal>) {
        if one == two {
            self.alike = self.alike.wrapping_add(1);
        } else {
            self.other = self.other.wrapping_add(1);
        }
        if let Err(
            Refusal {
                number,
                layer: LAYER,
                place: PLACE,
            },
        ) = one
        {
            let at = usize::from(number.wrapping_sub(FIRST));
            if let Some(reached) = self.reached.get_mut(at) {
                *reached = true;
            }
        }
    }

    // Whether every refusal of a store was reached.
    pub fn is_whole(&self) -> bool {
        self.reached.iter().all(|&reached| reached)
    }
}
