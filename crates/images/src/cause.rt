ghost use Rattle.images.specs.Causes.{image_cause_number};

use numbers::Numbered;
use spaces::FaultCause;

// Why an image has no byte at an address, each with its number.
#[derive(Clone, Copy, Debug, PartialEq, Eq)]
pub enum ImageCause {
    // No extent contains the address.
    NoExtent = 0x01,
    // An extent contains it, and the file does not have its byte.
    NotStored = 0x02,
}

impl Numbered for ImageCause {
    ghost number = { image_cause_number };

    fn number(self) -> u8 {
        self as u8
    }
}

impl FaultCause for ImageCause {}
