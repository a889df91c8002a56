ghost use Rattle.spaces.specs.CallLaws.{Locates};

use crate::fault::Fault;
use crate::space::Space;

// The byte at an address, or the fault of the layer or bottom that has none there.
pub fn locate<S: Space>(space: &S, at: u64) -> Result<u8, Fault>
    ensures { Locates (S.Space.meaning space.now) at result }
{
    space.byte(at)
}
