ghost use Rattle.std.specs.Prelude.{◌≡◌, is_some, true, OnOk, IfOk, OnErr};
ghost use Rattle.std.specs.Io.KnownBytes.{Appends};
ghost use Rattle.packets.specs.Items.{meant};
ghost use Rattle.packets.specs.Hearing.{heard};
ghost use Rattle.serving.specs.Serving.{fresh, gdb_service, due, sends};
ghost use Rattle.serving.specs.Words.{Listens, InPart, SentInTurn, Turns, Replies};

use crate::latest::Latest;
use crate::pc::with_known_pc;
use packets::{Item, REPLY};
use sessions::{Heard, Owing, PileServer, Waiting, open};
use spaces::Space;
use std::io::{self, Write};

// What serves a pile to GDB. All that it does is hear and answer, so the session keeps its whole promise.
pub struct Server<S> {
    // there between calls: hearing takes it out and puts it back
    talk: Option<Waiting>,
    pile_server: PileServer<S>,
    known_pc: bool,
    latest: Latest,
    ghost waits: { is_some talk ≡ true },
}

// Sends what is due for an item.
fn send<W: Write>(item: Item<'_>, latest: &[u8], output: &mut W) -> io::Result<()>
    ensures { OnOk result (Appends (W.contents output.old) (W.contents output.new)
        (due (meant item.entry) latest.now)) }
{
    if let Some(acknowledgment) = item.due() {
        output.write_all(&[acknowledgment])?;
    }
    if matches!(item, Item::Packet { .. } | Item::Resend) {
        output.write_all(latest)?;
    }
    Ok(())
}

impl<S: Space> Server<S> {
    ghost use Rattle.sessions.specs.Sessions.{state};
    ghost use Rattle.serving.specs.Servers.{served, knows_pc, service};

    // With `known_pc` the program counter is told as 0, and else as not known.
    pub fn new(space: S, known_pc: bool) -> Self
        ensures server { served S.Space.meaning result ≡ fresh (S.Space.meaning space) }
        ensures pc { knows_pc result ≡ known_pc }
    {
        let (talk, pile_server) = open(space);
        Server {
            talk: Some(talk),
            pile_server,
            known_pc,
            latest: Latest::none(),
        }
    }

    // Answers a payload: the frame that is sent is in front of the buffer, and its length comes with the talk.
    fn reply(
        pile_server: &mut PileServer<S>,
        known_pc: bool,
        owed: Owing,
        payload: &[u8],
        frame: &mut [u8; REPLY],
    ) -> (Waiting, usize)
        ensures { Replies (gdb_service known_pc) (state S.Space.meaning pile_server.old)
            payload.now frame.new result.1 (state S.Space.meaning pile_server.new) }
    {
        let (talk, count) = pile_server.answer(owed, payload, frame);
        if known_pc {
            (talk, with_known_pc(payload, frame, count))
        } else {
            (talk, count)
        }
    }

    // Hears the first item of the bytes received, and answers it if it is a packet.
    fn hear<'a>(&mut self, received: &'a [u8]) -> Item<'a>
        ensures item { meant result ≡ heard received.now }
        ensures server { served S.Space.meaning self.new ≡
            (sends (service self.old) (served S.Space.meaning self.old)
            (heard received.now)).served }
        ensures pc { knows_pc self.new ≡ knows_pc self.old }
    {
        let Some(talk) = self.talk.take() else {
            unreachable!()
        };
        let (talk, item) = match talk.hear(received) {
            Heard::Packet { owed, payload } => {
                let (pile_server, frame) = (&mut self.pile_server, &mut self.latest.reply);
                let (talk, count) = Server::reply(pile_server, self.known_pc, owed, payload, frame);
                self.latest.count = count;
                (talk, Item::Packet { payload })
            }
            Heard::Other { talk, item } => (talk, item),
        };
        match self.talk.replace(talk) {
            None => item,
            Some(_) => unreachable!(),
        }
    }

    // Serves the first item, and tells how many bytes it used.
    fn turn<W: Write>(&mut self, received: &[u8], output: &mut W) -> io::Result<usize>
        ensures ok { IfOk result (λ used. Turns (service self.old)
            (served S.Space.meaning self.old) received.now (W.contents output.old)
            (W.contents output.new) used (served S.Space.meaning self.new)) }
        ensures server { served S.Space.meaning self.new ≡
            (sends (service self.old) (served S.Space.meaning self.old)
            (heard received.now)).served }
        ensures pc { knows_pc self.new ≡ knows_pc self.old }
    {
        let item = self.hear(received);
        send(item, self.latest.bytes(), output)?;
        Ok(item.used())
    }

    // Serves every item that is whole, one behind the other.
    fn turns<W: Write>(&mut self, received: &[u8], output: &mut W) -> io::Result<usize>
        ensures ok { IfOk result (λ used. Listens (service self.old)
            (served S.Space.meaning self.old) received.now (W.contents output.old)
            (W.contents output.new) used (served S.Space.meaning self.new)) }
        ensures err { OnErr result (InPart (service self.old) (served S.Space.meaning self.old)
            received.now (served S.Space.meaning self.new)) }
        ensures pc { knows_pc self.new ≡ knows_pc self.old }
    {
        let mut used = 0;
        'items: loop {
            let n = self.turn(&received[used..], output)?;
            if n == 0 {
                return Ok(used);
            }
            used += n;
        }
    }

    // Serves every item that is whole, writes out all that is due, and tells how many bytes these items used.
    pub fn listen<W: Write>(&mut self, received: &[u8], output: &mut W) -> io::Result<usize>
        ensures ok { IfOk result (λ used. Listens (service self.old)
            (served S.Space.meaning self.old) received.now (W.contents output.old)
            (W.contents output.new) used (served S.Space.meaning self.new)) }
        ensures in_words { OnOk result (SentInTurn (service self.old)
            (served S.Space.meaning self.old) received.now (W.contents output.old)
            (W.contents output.new)) }
        ensures err { OnErr result (InPart (service self.old) (served S.Space.meaning self.old)
            received.now (served S.Space.meaning self.new)) }
        ensures pc { knows_pc self.new ≡ knows_pc self.old }
    {
        let used = self.turns(received, output)?;
        output.flush()?;
        Ok(used)
    }

    // The pile, from a server that is over.
    pub fn close(self) -> S
        ensures { S.Space.meaning result ≡ (served S.Space.meaning self).session.pile }
    {
        let Server {
            talk,
            pile_server,
            known_pc: _,
            latest: _,
        } = self;
        let Some(talk) = talk else { unreachable!() };
        pile_server.close(talk)
    }
}
