ghost use Rattle.std.specs.Prelude.{◌≡◌};
ghost use Rattle.spaces.specs.Piles.{Pile, Lawful, shown};
ghost use Rattle.spaces.specs.Reads.{Fills};
ghost use Rattle.spaces.specs.Edits.{Edits, setting, clearing};
ghost use Rattle.spaces.specs.Meant.{meant};

use crate::edit::Edit;
use crate::fault::Fault;
use crate::refusal::EditRefusal;

// A pile that can be read, and patched where it has overlays.
pub trait Space {
    ghost meaning: { Self → Pile };

    // The byte at an address.
    fn byte(&self, at: u64) -> Result<u8, Fault>
        ensures { result ≡ shown (meaning self.now) at };

    // The bytes from an address on, up to the first fault, the buffer's end or address 2^64 - 1: how many, and the fault.
    // A pair and no `Result`, since bytes before a fault count too.
    fn fill(&self, first: u64, out: &mut [u8]) -> (usize, Option<Fault>)
        ensures { Fills (shown (meaning self.now)) first out.old out.new result }
    {
        for (n, slot) in out.iter_mut().enumerate() {
            let Some(at) = first.checked_add(n as u64) else {
                return (n, None);
            };
            match self.byte(at) {
                Ok(b) => *slot = b,
                Err(f) => return (n, Some(f)),
            }
        }
        (out.len(), None)
    }

    // Changes the overlay at a depth.
    fn edit(&mut self, depth: u8, edit: Edit<'_>) -> Result<(), EditRefusal>
        ensures { Edits (meaning self.old) (meaning self.new) depth (meant edit.entry) result };

    // Patches consecutive addresses in the overlay at a depth.
    fn set(&mut self, depth: u8, first: u64, bytes: &[u8]) -> Result<(), EditRefusal>
        ensures { Edits (meaning self.old) (meaning self.new) depth (setting first bytes.now) result }
    {
        self.edit(depth, Edit::Set { first, bytes })
    }

    // Takes back the patches among some addresses in the overlay at a depth.
    fn clear(&mut self, depth: u8, first: u64, count: u64) -> Result<(), EditRefusal>
        ensures { Edits (meaning self.old) (meaning self.new) depth (clearing first count) result }
    {
        self.edit(depth, Edit::Clear { first, count })
    }

    // Every layer and the bottom keep their laws.
    ghost lawful: { (s : Self) → Lawful (meaning s) };
}
