ghost use Rattle.spaces.specs.Piles.{on, plain};
ghost use Rattle.spaces.proofs.Lawful.{on_lawful};
ghost use Rattle.outsiders.specs.Spares.{spare, spare_lawful};

use spaces::{Edit, EditRefusal, Fault, Space, climb, edit_under};

// A space that has a spare copy of itself: where an address has no byte, the one `offset` places further on answers.
// It goes on after a fault, so it is no walk.
#[derive(Drop)]
pub struct Spare<S> {
    pub offset: u64,
    pub below: S,
}

impl<S: Space> Space for Spare<S> {
    ghost meaning = { λ s. on (plain (spare s.offset)) (S.Space.meaning s.below) };

    ghost lawful = { λ s. on_lawful (plain (spare s.offset)) _ (spare_lawful s.offset) (S.Space.lawful s.below) };

    fn byte(&self, at: u64) -> Result<u8, Fault> {
        let here = self.below.byte(at);
        if here.is_ok() {
            return here;
        }
        match at.checked_add(self.offset) {
            Some(further) => climb(self.below.byte(further)),
            None => climb(here),
        }
    }

    fn edit(&mut self, depth: u8, edit: Edit<'_>) -> Result<(), EditRefusal> {
        edit_under(&mut self.below, depth, edit)
    }
}
