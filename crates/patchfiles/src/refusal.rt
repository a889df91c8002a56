ghost use Rattle.std.specs.Prelude.{◌≡◌, Some};
ghost use Rattle.numbers.specs.Texts.{number_text};
ghost use Rattle.patchfiles.specs.declared.refusal.PatchFileRefusal.TheVariants.{Edit};
ghost use Rattle.patchfiles.specs.Refusals.{patch_file_refusal_number};

use numbers::Numbered;
use spaces::EditRefusal;
use std::error::Error;
use std::fmt;

// Why a patch file goes no further, each with its number.
#[derive(Clone, Copy, Debug, PartialEq, Eq)]
pub enum PatchFileRefusal {
    // Its length is no multiple of 16: 3a.
    BadLength,
    // A record does not have a record's form: 3b.
    BadRecord,
    // The edit that a record asks for is refused: the number of its refusal.
    Edit(EditRefusal),
}

impl Numbered for PatchFileRefusal {
    ghost number = { patch_file_refusal_number };

    fn number(self) -> u8 {
        match self {
            PatchFileRefusal::BadLength => 0x3a,
            PatchFileRefusal::BadRecord => 0x3b,
            PatchFileRefusal::Edit(refusal) => refusal.number(),
        }
    }
}

impl From<EditRefusal> for PatchFileRefusal {
    ghost from_gives = { λ refusal given. given ≡ Edit refusal };

    fn from(refusal: EditRefusal) -> Self {
        Self::Edit(refusal)
    }
}

impl fmt::Display for PatchFileRefusal {
    ghost output = { λ r. Some (number_text (patch_file_refusal_number r)) };

    fn fmt<W: fmt::Write>(&self, f: &mut fmt::Formatter<W>) -> fmt::Result {
        write!(f, "{:02x}", self.number())
    }
}

impl Error for PatchFileRefusal {}
