ghost use Rattle.std.specs.Prelude.{◌≡◌, ◌≤◌, [], length};
ghost use Rattle.spaces.specs.Patches.{lookup, before, from};
ghost use Rattle.overlays.specs.Tables.{held, laid_over};

use crate::table::PatchTable;
use arrayvec::ArrayVec;
use spaces::Patch;

impl PatchTable {
    pub fn new() -> Self
        ensures { held result ≡ [] }
    {
        PatchTable {
            patches: ArrayVec::new(),
        }
    }

    // How many addresses are patched, 256 at the most.
    pub fn len(&self) -> usize
        ensures count { result ≡ length (held self.now) }
        ensures few { result ≤ 256 }
    {
        self.patches.len()
    }

    // The patch byte of an address: the first patch from there on has it, or none.
    pub fn lookup(&self, at: u64) -> Option<u8>
        ensures { result ≡ lookup (held self.now) at }
    {
        let (_, from) = self.parted(at as u128);
        let patch = from.first()?;
        (patch.address == at).then_some(patch.byte)
    }

    // Lays the patches over the bytes of consecutive addresses.
    pub(crate) fn lay_over(&self, first: u64, bytes: &mut [u8])
        ensures { bytes.new ≡ laid_over (held self.now) first bytes.old }
    {
        let (_, from) = self.parted(first as u128);
        for patch in from {
            let place = (patch.address - first) as usize;
            if place >= bytes.len() {
                return;
            }
            bytes[place] = patch.byte;
        }
    }

    // The patches before an address, and those from it on.
    pub(super) fn parted(&self, at: u128) -> (&[Patch], &[Patch])
        ensures before { result.0.now ≡ before at (held self.now) }
        ensures from { result.1.now ≡ from at (held self.now) }
    {
        let patches = self.patches.as_slice();
        patches.split_at(patches.partition_point(|patch| (patch.address as u128) < at))
    }
}
