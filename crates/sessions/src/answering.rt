// What the server of a pile replies to a payload.

ghost use Rattle.std.specs.Prelude.{◌+◌, ◌≤◌, ◌^◌, length, take, Ok};
ghost use Rattle.packets.specs.Digits.{paired};
ghost use Rattle.packets.specs.Commands.{read, write, meant};
ghost use Rattle.sessions.specs.Answers.{Answers};
ghost use Rattle.sessions.specs.Histories.{answered};
ghost use Rattle.sessions.specs.Promises.{Keeps};
ghost use Rattle.sessions.specs.Sessions.{state};
ghost use Rattle.sessions.specs.Texts.{CarriesOut, Replies, end_of};

use crate::pile_server::PileServer;
use crate::refusal::PayloadRefusal;
use crate::talk::{Owing, Waiting};
use crate::texts::{fail, say, say_bytes, say_fault};
use numbers::Numbered;
use packets::{Command, PAYLOAD, REPLY, digits, frame};
use spaces::Space;

// How many bytes a read gets at most.
const READ: usize = 2_048;

// One more than there can be patches: so many bytes decide whether a write is refused.
const WRITE: usize = 257;

// How many letters the registers are. Each is `x` where nothing is known.
pub const REGISTERS: usize = 328;

impl<S: Space> PileServer<S> {
    fn read(&mut self, first: u64, count: u64, text: &mut [u8; PAYLOAD]) -> usize
        requires { first + count ≤ 2 ^ 64 }
        ensures { CarriesOut (state S.Space.meaning self.old) (read first count)
            (state S.Space.meaning self.new) text.new (Ok result) }
    {
        let mut bytes = [0; READ];
        let room = count.min(READ as u64) as usize;
        let (got, fault) = self.space.fill(first, &mut bytes[..room]);
        self.last = fault.or(self.last);
        say_bytes(&bytes[..got], fault, text)
    }

    fn write(
        &mut self,
        first: u64,
        pairs: &[u8],
        text: &mut [u8; PAYLOAD],
    ) -> Result<usize, PayloadRefusal>
        requires { first + length (paired pairs.now) ≤ 2 ^ 64 }
        ensures { CarriesOut (state S.Space.meaning self.old) (write first pairs.now)
            (state S.Space.meaning self.new) text.new result }
    {
        let mut bytes = [0; WRITE];
        let count = digits::bytes(pairs, &mut bytes);
        self.space.set(self.depth, first, &bytes[..count])?;
        Ok(say(b"OK", text))
    }

    // Does what a command asks for, and writes the text of the reply.
    fn carry_out(
        &mut self,
        command: Command<'_>,
        text: &mut [u8; PAYLOAD],
    ) -> Result<usize, PayloadRefusal>
        requires { end_of (meant command) ≤ 2 ^ 64 }
        ensures { CarriesOut (state S.Space.meaning self.old) (meant command.entry)
            (state S.Space.meaning self.new) text.new result }
    {
        Ok(match command {
            Command::WhyHalted => say(b"S05", text),
            Command::Read { first, count } => self.read(first, count, text),
            Command::Write { first, digits } => self.write(first, digits, text)?,
            Command::Registers => say(&[b'x'; REGISTERS], text),
            Command::Detach | Command::Thread => say(b"OK", text),
            Command::Supported => say(b"PacketSize=1000", text),
            Command::Depth(depth) => {
                self.depth = depth;
                say(b"OK", text)
            }
            Command::LastFault => say_fault(self.last, text),
            Command::Unknown => say(b"", text),
        })
    }

    // Does what a payload asks for, and writes the text of the reply, unless the payload is refused.
    fn reply(&mut self, payload: &[u8], text: &mut [u8; PAYLOAD]) -> Result<usize, PayloadRefusal>
        ensures { Replies (state S.Space.meaning self.old) payload.now
            (state S.Space.meaning self.new) text.new result }
    {
        let command = Command::parse(payload)?;
        self.carry_out(command, text)
    }

    // Writes the frame of the reply to a payload, refused or not, in front of the buffer, and tells its length.
    fn reply_frame(&mut self, payload: &[u8], reply: &mut [u8; REPLY]) -> usize
        ensures { Answers (state S.Space.meaning self.old) payload.now reply.old reply.new result
            (state S.Space.meaning self.new) }
    {
        let mut text = [0; PAYLOAD];
        let count = match self.reply(payload, &mut text) {
            Ok(count) => count,
            Err(refusal) => fail(refusal.number(), &mut text),
        };
        frame(&text[..count], reply).unwrap_or(0)
    }

    // Answers a payload: the reply's frame is in front of the buffer, and its length comes with the talk, which waits again.
    pub fn answer(
        &mut self,
        owed: Owing,
        payload: &[u8],
        reply: &mut [u8; REPLY],
    ) -> (Waiting, usize)
        ensures is { Answers (state S.Space.meaning self.old) payload.now reply.old reply.new
            result.1 (state S.Space.meaning self.new) }
        ensures kept { Keeps (state S.Space.meaning self.old)
            (answered payload.now (take result.1 reply.new)) (state S.Space.meaning self.new) }
    {
        let count = self.reply_frame(payload, reply);
        (owed.into_waiting(), count)
    }
}
