ghost use Rattle.sessions.specs.Histories.{heard};
ghost use Rattle.sessions.specs.Promises.{Keeps};
ghost use Rattle.sessions.specs.Sessions.{HearsItem};
ghost use Rattle.sessions.specs.States.{State};

use crate::heard::Heard;
use packets::Item;

// What both states of a talk hold. It can be neither dropped nor copied, so neither can they.
struct Talk;

// A talk with GDB that waits for a packet. It knows of no pile.
pub struct Waiting {
    talk: Talk,
}

// A talk with GDB that owes a reply, to be given by the server of a pile.
pub struct Owing {
    talk: Talk,
}

impl Waiting {
    pub(crate) fn new() -> Self {
        Waiting { talk: Talk }
    }

    // Hears the first item in the bytes received. No server is changed, so each keeps its promise with this event more.
    pub fn hear(self, received: &[u8]) -> Heard<'_>
        ensures is { HearsItem received.now result }
        ensures kept { (s : State) → Keeps s (heard received.now) s }
    {
        match packets::hear(received) {
            Item::Packet { payload } => {
                let Waiting { talk } = self;
                Heard::Packet {
                    owed: Owing { talk },
                    payload,
                }
            }
            item => Heard::Other { talk: self, item },
        }
    }

    // Ends the talk.
    pub(crate) fn end(self) {
        let Waiting { talk: Talk } = self;
    }
}

impl Owing {
    // The talk once its reply is given.
    pub(crate) fn into_waiting(self) -> Waiting {
        let Owing { talk } = self;
        Waiting { talk }
    }
}
