ghost use Rattle.std.specs.Prelude.{Some};
ghost use Rattle.numbers.specs.Texts.{number_text};
ghost use Rattle.packets.specs.Refusals.{frame_refusal_number};

use numbers::Numbered;
use std::error::Error;
use std::fmt;

// Why a frame is refused, each with its number.
#[derive(Clone, Copy, Debug, PartialEq, Eq)]
pub enum FrameRefusal {
    // Its sum is another than its two digits say, or these are none.
    WrongSum = 0x20,
    // No `#` comes in time behind its `$`.
    NoEnd = 0x21,
}

impl Numbered for FrameRefusal {
    ghost number = { frame_refusal_number };

    fn number(self) -> u8 {
        self as u8
    }
}

impl fmt::Display for FrameRefusal {
    ghost output = { λ r. Some (number_text (frame_refusal_number r)) };

    fn fmt<W: fmt::Write>(&self, f: &mut fmt::Formatter<W>) -> fmt::Result {
        write!(f, "{:02x}", self.number())
    }
}

impl Error for FrameRefusal {}
