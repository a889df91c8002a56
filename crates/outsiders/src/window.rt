ghost use Rattle.spaces.specs.Piles.{on, walking};
ghost use Rattle.spaces.proofs.Walking.{walking_lawful};
ghost use Rattle.outsiders.specs.Shapes.{window};

use spaces::{Edit, EditRefusal, Fault, Space, climb, edit_under};

// A part of the space below, shown from address 0 on.
#[derive(Drop)]
pub struct Window<S> {
    pub start: u64,
    pub length: u64,
    pub below: S,
}

impl<S: Space> Space for Window<S> {
    ghost meaning = { λ s. on (walking (window s.start s.length)) (S.Space.meaning s.below) };

    ghost lawful = { λ s. walking_lawful (window s.start s.length) _ (S.Space.lawful s.below) };

    fn byte(&self, at: u64) -> Result<u8, Fault> {
        let outside = Err(Fault::own(at, 0x78));
        if at >= self.length {
            return outside;
        }
        match self.start.checked_add(at) {
            Some(place) => climb(self.below.byte(place)),
            None => outside,
        }
    }

    fn edit(&mut self, depth: u8, edit: Edit<'_>) -> Result<(), EditRefusal> {
        edit_under(&mut self.below, depth, edit)
    }
}
