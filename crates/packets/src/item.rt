ghost use Rattle.std.specs.Prelude.{◌≡◌};
ghost use Rattle.packets.specs.Items.{meant, said};

use crate::frame_refusal::FrameRefusal;

// What is heard first in the bytes received.
#[derive(Clone, Copy, Debug, PartialEq, Eq)]
pub enum Item<'a> {
    // Nothing yet: no bytes, or a frame that has not come whole.
    Unfinished,
    // `-`: the latest reply is to be sent again.
    Resend,
    // A byte that means nothing here.
    Ignored,
    // A frame whose sum is wrong, or that has no digits.
    WrongSum { used: usize },
    // A `$` behind which no `#` comes in time. It is used alone.
    NoEnd,
    // A good frame.
    Packet { payload: &'a [u8] },
}

impl Item<'_> {
    // How many of the bytes received it uses.
    pub fn used(self) -> usize
        ensures { result ≡ (said (meant self.entry)).used }
    {
        match self {
            Item::Unfinished => 0,
            Item::Resend | Item::Ignored | Item::NoEnd => 1,
            Item::WrongSum { used } => used,
            Item::Packet { payload } => payload.len() + 4,
        }
    }

    // Why it is refused, if it is.
    pub fn refusal(self) -> Option<FrameRefusal>
        ensures { result ≡ (said (meant self.entry)).refusal }
    {
        match self {
            Item::WrongSum { .. } => Some(FrameRefusal::WrongSum),
            Item::NoEnd => Some(FrameRefusal::NoEnd),
            _ => None,
        }
    }

    // The acknowledgment that is due, if one is.
    pub fn due(self) -> Option<u8>
        ensures { result ≡ (said (meant self.entry)).due }
    {
        match self {
            Item::Packet { .. } => Some(b'+'),
            Item::WrongSum { .. } => Some(b'-'),
            _ => None,
        }
    }
}
