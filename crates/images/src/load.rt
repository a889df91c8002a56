ghost use Rattle.std.specs.Prelude.{Some};
ghost use Rattle.images.specs.Texts.{not_loaded_text};

use crate::refusal::LoadRefusal;
use std::error::Error;
use std::fmt;

// Why a file was not loaded: the refusal, the place in the file of the header in question, and how many extents were
// written before it.
#[derive(Clone, Copy, Debug, PartialEq, Eq)]
pub struct NotLoaded {
    pub refusal: LoadRefusal,
    pub place: usize,
    pub written: usize,
}

impl fmt::Display for NotLoaded {
    ghost output = { λ n. Some (not_loaded_text n) };

    fn fmt<W: fmt::Write>(&self, f: &mut fmt::Formatter<W>) -> fmt::Result {
        write!(
            f,
            "refused {} at place {}, extents before it: {}",
            self.refusal, self.place, self.written
        )
    }
}

impl Error for NotLoaded {}
