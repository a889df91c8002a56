ghost use Rattle.std.specs.Prelude.{◌≡◌, Some};
ghost use Rattle.numbers.specs.Texts.{number_text};
ghost use Rattle.sessions.specs.declared.refusal.PayloadRefusal.TheVariants.{Command, Edit};
ghost use Rattle.sessions.specs.Refusals.{payload_refusal_number};

use numbers::Numbered;
use packets::CommandRefusal;
use spaces::EditRefusal;
use std::error::Error;
use std::fmt;

// Why a payload is refused, with the number that is replied behind `E`.
#[derive(Clone, Copy, Debug, PartialEq, Eq)]
pub enum PayloadRefusal {
    // By its form.
    Command(CommandRefusal),
    // By the pile: the edit that it asks for is refused.
    Edit(EditRefusal),
}

impl Numbered for PayloadRefusal {
    ghost number = { payload_refusal_number };

    fn number(self) -> u8 {
        match self {
            PayloadRefusal::Command(refusal) => refusal.number(),
            PayloadRefusal::Edit(refusal) => refusal.number(),
        }
    }
}

impl From<CommandRefusal> for PayloadRefusal {
    ghost from_gives = { λ refusal given. given ≡ Command refusal };

    fn from(refusal: CommandRefusal) -> Self {
        Self::Command(refusal)
    }
}

impl From<EditRefusal> for PayloadRefusal {
    ghost from_gives = { λ refusal given. given ≡ Edit refusal };

    fn from(refusal: EditRefusal) -> Self {
        Self::Edit(refusal)
    }
}

impl fmt::Display for PayloadRefusal {
    ghost output = { λ r. Some (number_text (payload_refusal_number r)) };

    fn fmt<W: fmt::Write>(&self, f: &mut fmt::Formatter<W>) -> fmt::Result {
        write!(f, "{:02x}", self.number())
    }
}

impl Error for PayloadRefusal {}
