ghost use Rattle.std.specs.Prelude.{Some};
ghost use Rattle.numbers.specs.Texts.{number_text};
ghost use Rattle.images.specs.Refusals.{load_refusal_number};

use numbers::Numbered;
use std::error::Error;
use std::fmt;

// Why a file is not loaded, each with its number.
#[derive(Clone, Copy, Debug, PartialEq, Eq)]
pub enum LoadRefusal {
    // A LiME header is cut short.
    HeaderCut = 0x30,
    // Its magic or version is wrong, or its last address is below its first.
    BadHeader = 0x31,
    // An extent shares an address with an earlier one.
    Overlap = 0x34,
    // The extent table has no room left.
    TableFull = 0x35,
}

impl Numbered for LoadRefusal {
    ghost number = { load_refusal_number };

    fn number(self) -> u8 {
        self as u8
    }
}

impl fmt::Display for LoadRefusal {
    ghost output = { λ r. Some (number_text (load_refusal_number r)) };

    fn fmt<W: fmt::Write>(&self, f: &mut fmt::Formatter<W>) -> fmt::Result {
        write!(f, "{:02x}", self.number())
    }
}

impl Error for LoadRefusal {}
