ghost use Rattle.spaces.specs.Patches.{LawfulPatches};

use arrayvec::ArrayVec;
use spaces::Patch;

mod edits;
mod places;
mod reads;

// At most 256 patches in memory of their own, in the order of their addresses. No model stands over it: that the patches
// are lawful, which the law of an overlay needs of every table, would be hidden with the field.
#[derive(Drop)]
pub struct PatchTable {
    patches: ArrayVec<Patch, 256>,
    ghost lawful: { LawfulPatches patches.items },
}
