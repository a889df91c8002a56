ghost use Rattle.std.specs.Prelude.{Some};
ghost use Rattle.images.specs.Kinds.{lime_bounds, lime_places};
ghost use Rattle.images.specs.Texts.{range_text};

use extents::{Extent, Stored, contains};
use std::fmt;

// A range of a LiME file: its addresses, and the place in the file of its first byte.
#[derive(Clone, Copy, Debug, Default, PartialEq, Eq)]
pub struct LimeRange {
    pub first: u64,
    pub last: u64,
    pub place: u64,
}

impl Extent for LimeRange {
    ghost bounds = { lime_bounds };

    fn first(&self) -> u64 {
        self.first
    }

    fn last(&self) -> u64 {
        self.last
    }
}

impl Stored for LimeRange {
    ghost places = { lime_places };

    fn place(&self, at: u64) -> Option<u128> {
        contains(self, at).then(|| self.place as u128 + (at - self.first) as u128)
    }
}

impl fmt::Display for LimeRange {
    ghost output = { λ r. Some (range_text r) };

    fn fmt<W: fmt::Write>(&self, f: &mut fmt::Formatter<W>) -> fmt::Result {
        write!(
            f,
            "{:016x} to {:016x}, bytes from place {} on",
            self.first, self.last, self.place
        )
    }
}
