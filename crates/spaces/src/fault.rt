ghost use Rattle.std.specs.Prelude.{◌≡◌, Some};
ghost use Rattle.spaces.specs.Maps.{own};
ghost use Rattle.spaces.specs.Texts.{fault_text};

use std::error::Error;
use std::fmt;

// Why an address has no byte: how far below the space that was read, at which address there, and the cause.
#[derive(Clone, Copy, Debug, PartialEq, Eq)]
pub struct Fault {
    pub depth: u8,
    pub address: u64,
    // a byte, since the spaces of others have causes that we do not know
    pub cause: u8,
}

impl Fault {
    // A fault of the space that was read, at the address read.
    pub fn own(address: u64, cause: u8) -> Fault
        ensures { result ≡ own address cause }
    {
        Fault {
            depth: 0,
            address,
            cause,
        }
    }
}

impl fmt::Display for Fault {
    ghost output = { λ f. Some (fault_text f) };

    fn fmt<W: fmt::Write>(&self, f: &mut fmt::Formatter<W>) -> fmt::Result {
        write!(
            f,
            "depth {}, address {:016x}, cause {:02x}",
            self.depth, self.address, self.cause
        )
    }
}

impl Error for Fault {}
