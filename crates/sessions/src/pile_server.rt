ghost use Rattle.std.specs.Prelude.{◌≡◌, []};
ghost use Rattle.sessions.specs.States.{fresh};
ghost use Rattle.sessions.specs.Answers.{AppliesTo};
ghost use Rattle.sessions.specs.Histories.{applied};
ghost use Rattle.sessions.specs.Promises.{Kept, Keeps};
ghost use Rattle.sessions.specs.Sessions.{state};

use crate::talk::Waiting;
use patchfiles::Stopped;
use spaces::{Fault, Space};

// The server of a pile: it answers payloads and applies patch files. It knows nothing of the talk with GDB.
pub struct PileServer<S> {
    pub(crate) space: S,
    // at which bytes are patched
    pub(crate) depth: u8,
    // the latest that a read met
    pub(crate) last: Option<Fault>,
}

// A new session over a pile: a talk that waits, and the server of the pile.
pub fn open<S: Space>(space: S) -> (Waiting, PileServer<S>)
    ensures is { state S.Space.meaning result.1 ≡ fresh (S.Space.meaning space) }
    ensures kept { Kept (S.Space.meaning space) [] (state S.Space.meaning result.1) }
{
    let server = PileServer {
        space,
        depth: 0,
        last: None,
    };
    (Waiting::new(), server)
}

impl<S: Space> PileServer<S> {
    // Applies a patch file to the pile.
    pub fn apply(&mut self, file: &[u8]) -> Result<usize, Stopped>
        ensures is { AppliesTo (state S.Space.meaning self.old) file.now result
            (state S.Space.meaning self.new) }
        ensures kept { Keeps (state S.Space.meaning self.old) (applied file.now result)
            (state S.Space.meaning self.new) }
    {
        patchfiles::apply(&mut self.space, file)
    }

    // The pile, from a session that is over. A talk that waits is needed: one that owes a reply has to be answered first.
    pub fn close(self, talk: Waiting) -> S
        ensures { result ≡ self.space }
    {
        talk.end();
        let PileServer {
            space,
            depth: _,
            last: _,
        } = self;
        space
    }
}
