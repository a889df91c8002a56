ghost use Rattle.std.specs.Prelude.{IfSome, OnOk, OnErr};
ghost use Rattle.serving.specs.Serving.{fresh, gdb_service};
ghost use Rattle.serving.specs.Words.{Serves, SentInTurn, ServesAll, BreaksOff};

use crate::received::Received;
use crate::server::Server;
use spaces::Space;
use std::io::{self, ErrorKind, Read, Write};

impl<S: Space> Server<S> {
    ghost use Rattle.serving.specs.Reading.{ToTheEnd, InPartOf};
    ghost use Rattle.serving.specs.Servers.{served, service};

    // Listens to all of the input, in 2^64 - 1 pieces at the most.
    fn run<R: Read, W: Write>(&mut self, input: &mut R, output: &mut W) -> io::Result<()>
        ensures ok { OnOk result (ToTheEnd (service self.old) (served S.Space.meaning self.old)
            (R.remaining input.old) (R.remaining input.new) (W.contents output.old)
            (W.contents output.new) (served S.Space.meaning self.new)) }
        ensures err { OnErr result (InPartOf (service self.old) (served S.Space.meaning self.old)
            (R.remaining input.old) (R.remaining input.new) (served S.Space.meaning self.new)) }
    {
        let mut received = Received::nothing();
        for _ in 0..u64::MAX {
            if !received.read(input)? {
                return Ok(());
            }
            let used = self.listen(received.bytes(), output)?;
            received.release(used);
        }
        Err(io::Error::from(ErrorKind::TimedOut))
    }
}

// Serves GDB until the end of the input, and gives the pile back. After each piece that is read, all that is due is written
// out before the next is read, since GDB waits for it. What is left of an unfinished frame is dropped.
pub fn serve<S: Space, R: Read, W: Write>(
    space: S,
    known_pc: bool,
    input: &mut R,
    output: &mut W,
) -> (S, io::Result<()>)
    ensures is { OnOk result.1 (IfSome (R.remaining input.old) (λ stream.
        Serves (gdb_service known_pc) (S.Space.meaning space) stream (W.contents output.old)
        (W.contents output.new) (S.Space.meaning result.0))) }
    ensures in_words { OnOk result.1 (IfSome (R.remaining input.old) (λ stream.
        SentInTurn (gdb_service known_pc) (fresh (S.Space.meaning space)) stream
        (W.contents output.old) (W.contents output.new))) }
    ensures all { OnOk result.1 (ServesAll (gdb_service known_pc) (S.Space.meaning space)
        (R.remaining input.old) (R.remaining input.new) (W.contents output.old)
        (W.contents output.new) (S.Space.meaning result.0)) }
    ensures err { OnErr result.1 (BreaksOff (gdb_service known_pc) (S.Space.meaning space)
        (R.remaining input.old) (R.remaining input.new) (S.Space.meaning result.0)) }
{
    let mut server = Server::new(space, known_pc);
    let result = server.run(input, output);
    (server.close(), result)
}
