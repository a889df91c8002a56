ghost use Rattle.spaces.specs.Edits.{setting};
ghost use Rattle.spaces.specs.CallLaws.{Watches};

use crate::fault::Fault;
use crate::refusal::EditRefusal;
use crate::space::Space;

// What a set answered, and what one address had before and after it.
#[derive(Clone, Copy, Debug, PartialEq, Eq)]
pub struct Watched {
    pub before: Result<u8, Fault>,
    pub outcome: Result<(), EditRefusal>,
    pub after: Result<u8, Fault>,
}

// Patches consecutive addresses in the overlay at a depth, and reads one address before and after. The patches are given
// in parts, as to `set`.
pub fn watched_set<S: Space>(space: &mut S, depth: u8, first: u64, bytes: &[u8], at: u64) -> Watched
    ensures { Watches (S.Space.meaning space.old) (S.Space.meaning space.new) depth (setting first bytes.now) at result }
{
    let before = space.byte(at);
    let outcome = space.set(depth, first, bytes);
    let after = space.byte(at);
    Watched {
        before,
        outcome,
        after,
    }
}
