ghost use Rattle.std.specs.Prelude.{Some};
ghost use Rattle.numbers.specs.Texts.{number_text};
ghost use Rattle.packets.specs.Refusals.{command_refusal_number};

use numbers::Numbered;
use std::error::Error;
use std::fmt;

// Why a payload is refused by its form, each with its number: the smallest that applies.
#[derive(Clone, Copy, Debug, PartialEq, Eq)]
pub enum CommandRefusal {
    // It does not have the form of its name.
    BadForm = 0x22,
    // It names no address.
    NoAddresses = 0x23,
    // It does not bring two digits for each address.
    WrongDigits = 0x24,
    // Its last address is above 2^64 - 1.
    PastTheEnd = 0x25,
}

impl Numbered for CommandRefusal {
    ghost number = { command_refusal_number };

    fn number(self) -> u8 {
        self as u8
    }
}

impl fmt::Display for CommandRefusal {
    ghost output = { λ r. Some (number_text (command_refusal_number r)) };

    fn fmt<W: fmt::Write>(&self, f: &mut fmt::Formatter<W>) -> fmt::Result {
        write!(f, "{:02x}", self.number())
    }
}

impl Error for CommandRefusal {}
