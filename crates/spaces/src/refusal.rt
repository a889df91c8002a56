ghost use Rattle.std.specs.Prelude.{Some};
ghost use Rattle.numbers.specs.Texts.{number_text};
ghost use Rattle.spaces.specs.Refusals.{edit_refusal_number};

use numbers::Numbered;
use std::error::Error;
use std::fmt;

// Why an edit of a pile is refused, each with its number.
#[derive(Clone, Copy, Debug, PartialEq, Eq)]
pub enum EditRefusal {
    // An address would be above 2^64 - 1.
    PastTheEnd = 0x25,
    // At its depth there is no overlay.
    NoOverlay = 0x26,
    // More than 256 addresses would be patched.
    TooManyPatches = 0x27,
}

impl Numbered for EditRefusal {
    ghost number = { edit_refusal_number };

    fn number(self) -> u8 {
        self as u8
    }
}

impl fmt::Display for EditRefusal {
    ghost output = { λ r. Some (number_text (edit_refusal_number r)) };

    fn fmt<W: fmt::Write>(&self, f: &mut fmt::Formatter<W>) -> fmt::Result {
        write!(f, "{:02x}", self.number())
    }
}

impl Error for EditRefusal {}
