ghost use Rattle.std.specs.Prelude.{length};
ghost use Rattle.spaces.specs.Edits.{setting};
ghost use Rattle.spaces.specs.CallLaws.{Watches};
ghost use Rattle.outsiders.specs.Sights.{through_window, Blames, Unseen};

use crate::window::Window;
use spaces::{Fault, Space, Watched, locate, watched_set};

// What holds of every pile, put to use by somebody outside.

// The byte of a window at an address. A fault is the window's own, or it arose in the space below.
pub fn byte_in_window<S: Space>(window: &Window<S>, at: u64) -> Result<u8, Fault>
    ensures { Blames window.now.start window.now.length (S.Space.meaning window.now.below) at result }
{
    locate(window, at)
}

// Patches what lies right below a window, and watches an address of the window. A patch of addresses that the window
// does not show changes nothing there.
pub fn patch_under_window<S: Space>(
    window: &mut Window<S>,
    first: u64,
    bytes: &[u8],
    at: u64,
) -> Watched
    ensures watches { Watches (through_window window.old.start window.old.length (S.Space.meaning window.old.below)) (through_window window.new.start window.new.length (S.Space.meaning window.new.below)) 1 (setting first bytes.now) at result }
    ensures unseen { Unseen window.old.start window.old.length first (length bytes.now) result }
{
    watched_set(window, 1, first, bytes, at)
}
