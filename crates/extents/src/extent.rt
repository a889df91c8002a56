ghost use Rattle.std.specs.Prelude.{◌≡◌, ℕ, Decides, Option};
ghost use Rattle.extents.specs.Bounds.{Bounds, Contains, Overlap, contains, overlaps};

// A range of addresses, both ends included. One whose first address lies above its last contains nothing.
pub trait Extent {
    ghost bounds: { Self → Bounds };

    fn first(&self) -> u64
        ensures { result ≡ (bounds self.now).first };

    fn last(&self) -> u64
        ensures { result ≡ (bounds self.now).last };
}

// An extent whose bytes lie in a file.
pub trait Stored: Extent {
    ghost places: { Self → ℕ → Option ℕ };

    // Where the byte of an address stands in the file, if it is stored at all.
    fn place(&self, at: u64) -> Option<u128>
        ensures { result ≡ places self.now at };
}

// Whether the address lies in the extent.
pub fn contains<E: Extent>(extent: &E, at: u64) -> bool
    ensures answer { result ≡ contains (E.Extent.bounds extent.now) at }
    ensures means { Decides result (Contains (E.Extent.bounds extent.now) at) }
{
    extent.first() <= at && at <= extent.last()
}

// Whether some address lies in both extents.
pub fn overlap<A: Extent, B: Extent>(a: &A, b: &B) -> bool
    ensures answer { result ≡ overlaps (A.Extent.bounds a.now) (B.Extent.bounds b.now) }
    ensures means { Decides result (Overlap (A.Extent.bounds a.now) (B.Extent.bounds b.now)) }
{
    a.first().max(b.first()) <= a.last().min(b.last())
}
