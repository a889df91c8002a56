// Sessions as these tests hold them: no other file of these tests calls into `sessions`.

use packets::{Item, PAYLOAD, REPLY};
use patchfiles::Stopped;
use replays::{Call, Slot, Stage, replay};
use sessions::{Heard, Owing, PileServer, Waiting, open};
use spaces::Space;
use std::process::Abort;

const DIGITS: [u8; 16] = *b"0123456789abcdef";

// Dots behind the frame of a text. The frame is written by a second hand, since the one of `packets` is what is tested: `$`,
// the text, `#`, and two digits of the sum of its bytes.
pub(crate) fn framed(text: &[u8]) -> [u8; REPLY] {
    let text = &text[..text.len().min(PAYLOAD)];
    let end = text.len() + 1;
    let sum = text.iter().fold(0u8, |sum, b| sum.wrapping_add(*b));
    let high = DIGITS[(sum / 16) as usize];
    let low = DIGITS[(sum % 16) as usize];
    let mut buffer = [b'.'; REPLY];
    buffer[0] = b'$';
    buffer[1..end].copy_from_slice(text);
    buffer[end..end + 3].copy_from_slice(&[b'#', high, low]);
    buffer
}

// A session whose talk waits.
pub(crate) struct Session<S> {
    talk: Waiting,
    server: PileServer<S>,
}

pub(crate) fn session_over<S: Space>(space: S) -> Session<S> {
    let (talk, server) = open(space);
    Session { talk, server }
}

// The space of a session that is over.
pub(crate) fn space_of<S: Space>(session: Session<S>) -> S {
    let Session { talk, server } = session;
    server.close(talk)
}

// A payload is answered, by a reply that nobody looks at.
fn after_reply<S: Space>(server: PileServer<S>, owed: Owing, payload: &[u8]) -> Session<S> {
    let mut server = server;
    let mut buffer = [0; REPLY];
    let (talk, _) = server.answer(owed, payload, &mut buffer);
    Session { talk, server }
}

// A packet with this payload is heard first: the server, and the reply that is owed.
fn server_and_owed<S: Space + Drop>(
    rt: &impl Abort,
    session: Session<S>,
    received: &[u8],
    expected: &[u8],
) -> (PileServer<S>, Owing) {
    let Session { talk, server } = session;
    match talk.hear(received) {
        Heard::Packet { owed, payload } => {
            assert!(rt; payload == expected, "{received:?}");
            (server, owed)
        }
        Heard::Other { talk, .. } => {
            let _ = server.close(talk);
            panic!(rt; "it is no packet")
        }
    }
}

// A packet is heard, and its payload answered.
pub(crate) fn hear_packet<S: Space + Drop>(
    rt: &impl Abort,
    session: Session<S>,
    received: &[u8],
    payload: &[u8],
) -> Session<S> {
    let (server, owed) = server_and_owed(rt, session, received, payload);
    after_reply(server, owed, payload)
}

// What is heard is no packet, but this item, and the talk still waits.
pub(crate) fn hear_other<S: Space + Drop>(
    rt: &impl Abort,
    session: Session<S>,
    received: &[u8],
    expected: Item,
) -> Session<S> {
    let Session { talk, server } = session;
    match talk.hear(received) {
        Heard::Packet { owed, .. } => {
            let _ = space_of(after_reply(server, owed, b""));
            panic!(rt; "it is a packet")
        }
        Heard::Other { talk, item } => {
            assert!(rt; item == expected, "{received:?}");
            Session { talk, server }
        }
    }
}

// A patch file is applied with this outcome, while the talk waits or while a reply is owed.
pub(crate) fn apply<S: Space + Drop>(
    rt: &impl Abort,
    session: Session<S>,
    owes: bool,
    file: &[u8],
    expected: Result<usize, Stopped>,
) -> Session<S> {
    if owes {
        let (mut server, owed) = server_and_owed(rt, session, &framed(b"D"), b"D");
        assert!(rt; server.apply(file) == expected);
        return after_reply(server, owed, b"D");
    }
    let mut session = session;
    assert!(rt; session.server.apply(file) == expected);
    session
}

// A payload is heard and answered with the frame of this text, and the buffer behind it is as it was.
pub(crate) fn reply<S: Space + Drop>(
    rt: &impl Abort,
    session: Session<S>,
    payload: &[u8],
    text: &[u8],
) -> Session<S> {
    let (mut server, owed) = server_and_owed(rt, session, &framed(payload), payload);
    let mut buffer = [b'.'; REPLY];
    let (talk, count) = server.answer(owed, payload, &mut buffer);
    let right = count == text.len() + 4 && buffer == framed(text);
    assert!(rt; right, "{payload:?}");
    Session { talk, server }
}

// Payloads, each with the text of its reply.
pub(crate) fn replies<S: Space + Drop>(
    rt: &impl Abort,
    session: Session<S>,
    turns: &[(&str, &str)],
) -> Session<S> {
    let mut session = session;
    for (payload, text) in turns {
        session = reply(rt, session, payload.as_bytes(), text.as_bytes());
    }
    session
}

// A session of its own over a space, which it gives back.
pub(crate) fn dialogue<S: Space + Drop>(rt: &impl Abort, space: S, turns: &[(&str, &str)]) -> S {
    space_of(replies(rt, session_over(space), turns))
}

// Calls are made over a new session: whether a reply is owed at the end, and its space.
pub(crate) fn replay_over<'a, S: Space>(
    space: S,
    calls: &[Call<'a>],
    slots: &mut [Slot<'a>],
) -> (bool, S) {
    let (stage, server) = replay(space, calls, slots);
    match stage {
        Stage::Waits(talk) => (false, server.close(talk)),
        Stage::Owes(owed) => (true, space_of(after_reply(server, owed, b""))),
    }
}
