ghost use Rattle.std.specs.Prelude.{◌≡◌};
ghost use Rattle.std.specs.Option.{option_map};
ghost use Rattle.patchfiles.specs.Records.{mark_of};
ghost use Rattle.patchfiles.specs.Meant.{meant};

use endian::u64_at;
use spaces::Edit;
use std::slice;

// How many bytes a record has.
pub const RECORD: usize = 16;

// A record of a patch file: an edit, and the depth at which it is made.
#[derive(Clone, Copy, Debug, PartialEq, Eq)]
pub struct Record<'a> {
    pub depth: u8,
    pub edit: Edit<'a>,
}

impl<'a> Record<'a> {
    // What a record asks for, or none if it is malformed.
    pub fn parse(raw: &'a [u8; RECORD]) -> Option<Record<'a>>
        ensures { option_map meant result ≡ mark_of raw.now }
    {
        let [.., depth, kind, 0, 0, value, 0, 0, 0] = raw else {
            return None;
        };
        let first = u64_at(raw, 0)?;
        let edit = match (kind, value) {
            (1, _) => Edit::Set {
                first,
                bytes: slice::from_ref(value),
            },
            (0, 0) => Edit::Clear { first, count: 1 },
            _ => return None,
        };
        Some(Record {
            depth: *depth,
            edit,
        })
    }
}
