ghost use Rattle.std.specs.Prelude.{◌≡◌, ◌+◌, None};
ghost use Rattle.spaces.specs.Edits.{first_of, count_of, bytes_of, ending, outcome};
ghost use Rattle.spaces.specs.Meant.{meant};

use crate::refusal::EditRefusal;

// A change of one overlay.
#[derive(Clone, Copy, Debug, PartialEq, Eq)]
pub enum Edit<'a> {
    // Patch consecutive addresses, each with its byte.
    Set { first: u64, bytes: &'a [u8] },
    // Take back the patches among so many addresses.
    Clear { first: u64, count: u64 },
}

impl<'a> Edit<'a> {
    pub fn first(self) -> u64
        ensures { result ≡ first_of (meant self.entry) }
    {
        match self {
            Edit::Set { first, .. } | Edit::Clear { first, .. } => first,
        }
    }

    // The address behind its last one.
    pub fn end(self) -> u128
        ensures { result ≡ first_of (meant self.entry) + count_of (meant self.entry) }
    {
        match self {
            Edit::Set { first, bytes } => first as u128 + bytes.len() as u128,
            Edit::Clear { first, count } => first as u128 + count as u128,
        }
    }

    // Refused where an address would be above 2^64 - 1.
    pub fn within(self) -> Result<(), EditRefusal>
        ensures { result ≡ outcome (ending (first_of (meant self.entry) + count_of (meant self.entry)) None) }
    {
        if self.end() > 1 << 64 {
            return Err(EditRefusal::PastTheEnd);
        }
        Ok(())
    }

    // The bytes that it leaves as patches: none where it takes patches back.
    pub fn bytes(self) -> &'a [u8]
        ensures { result.now ≡ bytes_of (meant self.entry) }
    {
        match self {
            Edit::Set { bytes, .. } => bytes,
            Edit::Clear { .. } => &[],
        }
    }
}
