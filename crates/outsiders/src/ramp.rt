ghost use Rattle.spaces.specs.Piles.{bottom};
ghost use Rattle.spaces.proofs.Lawful.{bottom_lawful};
ghost use Rattle.outsiders.specs.Shapes.{ramp};

use spaces::{Edit, EditRefusal, Fault, Space, no_overlay_here};

// Bytes that count up from 0, as many as it is long.
#[derive(Drop)]
pub struct Ramp {
    pub length: u64,
}

impl Space for Ramp {
    ghost meaning = { λ s. bottom (ramp s.length) };

    ghost lawful = { λ s. bottom_lawful (ramp s.length) };

    fn byte(&self, at: u64) -> Result<u8, Fault> {
        if at < self.length {
            return Ok((at % 256) as u8);
        }
        // a number, as the cause of a space that nobody here knows
        Err(Fault::own(at, 0x77))
    }

    fn edit(&mut self, depth: u8, edit: Edit<'_>) -> Result<(), EditRefusal> {
        Err(no_overlay_here(edit))
    }
}
