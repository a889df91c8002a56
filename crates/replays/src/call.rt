ghost use Rattle.std.specs.Prelude.{◌≡◌, replicate};
ghost use Rattle.replays.specs.Replays.{slot_meant, not_allowed};

use packets::{Item, REPLY};
use patchfiles::Stopped;

// A call of a session.
#[derive(Clone, Copy, Debug, PartialEq, Eq)]
pub enum Call<'a> {
    // Hear the first item in these bytes.
    Hear(&'a [u8]),
    // Answer this payload.
    Answer(&'a [u8]),
    // Apply this patch file.
    Apply(&'a [u8]),
}

// What comes of a call.
#[derive(Clone, Copy, Debug, PartialEq, Eq)]
pub enum Outcome<'a> {
    // No reply is owed and a payload is to be answered, or one is owed and bytes are to be heard.
    NotAllowed,
    Heard(Item<'a>),
    // The length of the reply's frame.
    Answered(usize),
    Applied(Result<usize, Stopped>),
}

// A place for the outcome of a call, and for the frame of a reply.
#[derive(Clone, Copy)]
pub struct Slot<'a> {
    pub outcome: Outcome<'a>,
    pub reply: [u8; REPLY],
}

impl Slot<'_> {
    // A place where nothing has come yet.
    pub fn empty() -> Self
        ensures { slot_meant result ≡ record { outcome = not_allowed; frame = replicate 4100 0 } }
    {
        Slot {
            outcome: Outcome::NotAllowed,
            reply: [0; REPLY],
        }
    }
}
