ghost use Rattle.std.specs.Prelude.{◌≡◌, []};
ghost use Rattle.spaces.specs.Piles.{on, overlay};
ghost use Rattle.spaces.proofs.Lawful.{on_lawful};
ghost use Rattle.overlays.specs.Tables.{held, held_lawful};

use crate::table::PatchTable;
use spaces::{Edit, EditRefusal, Fault, Space, climb, fill_below, most};

// A layer of patches over the space below.
#[derive(Drop)]
pub struct Overlay<S> {
    patches: PatchTable,
    below: S,
}

impl<S: Space> Overlay<S> {
    pub fn new(below: S) -> Self
        ensures is { (held result.patches ≡ []) × (result.below ≡ below) }
        ensures means { ⟦<Self as Space>⟧.meaning result ≡ on (overlay []) (S.Space.meaning below) }
    {
        Overlay {
            patches: PatchTable::new(),
            below,
        }
    }
}

impl<S: Space> Space for Overlay<S> {
    ghost meaning = { λ s. on (overlay (held s.patches)) (S.Space.meaning s.below) };

    ghost lawful = { λ s. on_lawful (overlay (held s.patches)) _ (held_lawful s.patches) (S.Space.lawful s.below) };

    fn byte(&self, at: u64) -> Result<u8, Fault> {
        // by `?`, as a fault goes up through every layer
        Ok(match self.patches.lookup(at) {
            Some(b) => b,
            None => climb(self.below.byte(at))?,
        })
    }

    // A patched address shows its patch, and nothing below is read for it. From any other on, the space below fills a
    // stretch, and the patches are laid over it.
    fn fill(&self, first: u64, out: &mut [u8]) -> (usize, Option<Fault>) {
        let room = most(first, out);
        let mut count = 0;
        while count < room {
            let at = first + count as u64;
            if let Some(byte) = self.patches.lookup(at) {
                out[count] = byte;
                count += 1;
                continue;
            }
            let (placed, fault) = fill_below(&self.below, at, &mut out[count..room]);
            if placed == 0 {
                return (count, fault);
            }
            let end = count + placed;
            self.patches.lay_over(at, &mut out[count..end]);
            count = end;
        }
        (count, None)
    }

    fn edit(&mut self, depth: u8, edit: Edit<'_>) -> Result<(), EditRefusal> {
        // not by `edit_under`, which refuses what is for this depth
        match depth.checked_sub(1) {
            Some(depth) => self.below.edit(depth, edit),
            None => self.patches.edit(edit),
        }
    }
}
