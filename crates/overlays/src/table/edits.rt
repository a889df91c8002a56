ghost use Rattle.std.specs.Prelude.{◌≡◌, ℕ, ◌+◌, ◌^◌, ◌≤◌, length};
ghost use Rattle.spaces.specs.Edits.{EditsPatches, setting, clearing};
ghost use Rattle.spaces.specs.Meant.{meant};
ghost use Rattle.spaces.specs.EditLaws.{EditLaws, ClearLaw};
ghost use Rattle.overlays.specs.Tables.{held, Around, Replaces};

use crate::table::PatchTable;
use crate::table::places::splice_in;
use spaces::{Edit, EditRefusal};

impl PatchTable {
    // Patches consecutive addresses, unless more than 256 would be patched.
    pub fn set(&mut self, first: u64, bytes: &[u8]) -> Result<(), EditRefusal>
        ensures edits { EditsPatches (held self.old) (held self.new) (setting first bytes.now) result }
        ensures laws { EditLaws (setting first bytes.now) (held self.old) (held self.new) result }
    {
        self.edit(Edit::Set { first, bytes })
    }

    // Takes back the patches among some addresses.
    pub fn clear(&mut self, first: u64, count: u64) -> Result<(), EditRefusal>
        ensures edits { EditsPatches (held self.old) (held self.new) (clearing first count) result }
        ensures laws { EditLaws (clearing first count) (held self.old) (held self.new) result }
        ensures fits { ClearLaw first count result }
    {
        self.edit(Edit::Clear { first, count })
    }

    // Makes either edit, unless more than 256 addresses would be patched.
    pub fn edit(&mut self, edit: Edit<'_>) -> Result<(), EditRefusal>
        ensures edits { EditsPatches (held self.old) (held self.new) (meant edit.entry) result }
        ensures laws { EditLaws (meant edit.entry) (held self.old) (held self.new) result }
        ensures fits { (first count : ℕ) → meant edit.entry ≡ clearing first count → ClearLaw first count result }
    {
        edit.within()?;
        self.replace(edit.first(), edit.end(), edit.bytes())
    }

    // The places at which the patches from first to before end begin and end.
    fn around(&self, first: u64, end: u128) -> (usize, usize)
        requires { first ≤ end }
        ensures { Around (held self.now) first end result.0 result.1 }
    {
        let (before, _) = self.parted(first as u128);
        let (not_behind, _) = self.parted(end);
        (before.len(), not_behind.len())
    }

    // Puts a patch for each byte, from first on, in the place of the patches from there to before end, unless there is no
    // room for all. It takes an edit's parts, since each has its own place in the table.
    fn replace(&mut self, first: u64, end: u128, bytes: &[u8]) -> Result<(), EditRefusal>
        requires fits { first + length bytes.now ≤ end }
        requires ends { end ≤ 2 ^ 64 }
        ensures { Replaces (held self.old) (held self.new) first end bytes.now result }
    {
        let count = self.len();
        let (low, high) = self.around(first, end);
        let kept = low + (count - high);
        if bytes.len() > 256 - kept {
            return Err(EditRefusal::TooManyPatches);
        }
        splice_in(&mut self.patches, low, high, first, bytes);
        Ok(())
    }
}
