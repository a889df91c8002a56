ghost use Rattle.std.specs.Prelude.{◌≡◌};
ghost use Rattle.spaces.specs.Maps.{own};

use crate::fault::Fault;
use numbers::Numbered;

// A kind of cause that an address may have no byte.
pub trait FaultCause: Numbered {
    // The fault of a space of which it is the cause at an address.
    final fn at(self, address: u64) -> Fault
        ensures { result ≡ own address (Self.number self) }
    {
        Fault::own(address, self.number())
    }
}
