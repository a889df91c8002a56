ghost use Rattle.std.specs.Prelude.{◌≡◌, ◌≤◌, length, option_copied, Decides};

use crate::extent::{Extent, contains, overlap};

// Why an extent is not added: its table has no room for it.
#[derive(Clone, Copy, Debug, PartialEq, Eq)]
pub struct Full;

// Extents in the caller's memory: the first `count` entries of a slice. The memory is lent, so it is no `Vec`; and contracts
// speak of all of it, so no model hides it.
#[derive(Drop)]
pub struct Table<'a, E> {
    entries: &'a mut [E],
    count: usize,
    ghost fits: { count ≤ length entries.now },
}

impl<'a, E: Extent + Copy> Table<'a, E> {
    ghost use Rattle.std.specs.List.{slice_get};
    ghost use Rattle.extents.specs.Tables.{held, IsTable, Pushed, first_containing, Finds, overlaps_any, OverlapAny};

    // A table over the slice that holds nothing.
    pub fn new(entries: &'a mut [E]) -> Self
        ensures { IsTable result entries.entry 0 }
    {
        Table { entries, count: 0 }
    }

    // Lets go of all that it holds. No entry is written.
    pub fn clear(&mut self)
        ensures { IsTable self.new self.old.entries 0 }
    {
        self.count = 0;
    }

    // Adds an extent at the end. It is refused, and nothing changes, where the slice is full.
    pub fn push(&mut self, extent: E) -> Result<(), Full>
        ensures { Pushed self.old self.new extent result }
    {
        if self.count == self.entries.len() {
            return Err(Full);
        }
        // by index, since a proof knows nothing afterwards of what is written through `get_mut`
        self.entries[self.count] = extent;
        self.count += 1;
        Ok(())
    }

    // The extents that it holds.
    pub fn as_slice(&self) -> &[E]
        ensures { result.now ≡ held self.now }
    {
        &self.entries[..self.count]
    }

    // How many it holds.
    pub fn len(&self) -> usize
        ensures { result ≡ length (held self.now) }
    {
        self.as_slice().len()
    }

    // The one at a place, counted from 0.
    pub fn get(&self, i: usize) -> Option<E>
        ensures { result ≡ slice_get (held self.now) i }
    {
        self.as_slice().get(i).copied()
    }

    // The first that contains the address, by reference.
    fn first_containing(&self, at: u64) -> Option<&E>
        ensures { option_copied result ≡ first_containing E.Extent.bounds (held self.now) at }
    {
        self.as_slice().iter().find(|extent| contains(*extent, at))
    }

    // The first that contains the address. It is copied behind the search, whose loop has fewer instructions for that.
    #[tactic(auto, using(crate::proofs::Searching::finds_by))]
    pub fn lookup(&self, at: u64) -> Option<E>
        ensures answer { result ≡ first_containing E.Extent.bounds (held self.now) at }
        ensures means { Finds E.Extent.bounds (held self.now) at result }
    {
        self.first_containing(at).copied()
    }

    // Whether one that it holds overlaps the extent, which may be of another kind.
    pub fn overlaps<X: Extent>(&self, extent: &X) -> bool
        ensures answer { result ≡ overlaps_any E.Extent.bounds (held self.now) (X.Extent.bounds extent.now) }
        ensures means { Decides result (OverlapAny E.Extent.bounds (held self.now) (X.Extent.bounds extent.now)) }
    {
        self.as_slice().iter().any(|own| overlap(own, extent))
    }
}
