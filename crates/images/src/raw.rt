ghost use Rattle.images.specs.Kinds.{raw_bounds, raw_places};

use extents::{Extent, Stored, contains};

// The one extent of a raw file that is not empty: address 0 to its length - 1. A kind of its own, with less to hold than a
// LiME range.
#[derive(Clone, Copy, Debug, Default, PartialEq, Eq)]
pub struct RawExtent {
    pub last: u64,
}

impl Extent for RawExtent {
    ghost bounds = { raw_bounds };

    fn first(&self) -> u64 {
        0
    }

    fn last(&self) -> u64 {
        self.last
    }
}

impl Stored for RawExtent {
    ghost places = { raw_places };

    fn place(&self, at: u64) -> Option<u128> {
        contains(self, at).then_some(at as u128)
    }
}
