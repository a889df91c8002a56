use crate::piles::{counting, windowed};
use crate::session::{dialogue, framed, replay_over};
use packets::{Item, REPLY};
use patchfiles::{PatchFileRefusal, Stopped};
use replays::{Call, Outcome, Slot};
use spaces::Space;
use std::process::Abort;

// A place before a call: it has an outcome that no call here has.
fn empty() -> Slot<'static> {
    Slot {
        outcome: Outcome::Answered(0),
        reply: [b'.'; REPLY],
    }
}

// The most calls of a replay, and the most places.
const MOST: usize = 12;

// A call, its outcome, and the text of the reply where it is answered.
type Turn<'a> = (Call<'a>, Outcome<'a>, &'a str);

// A place after a call: the buffer is as it was but for a reply.
fn came(rt: &impl Abort, slot: &Slot, turn: &Turn) {
    let (_, outcome, text) = turn;
    assert!(rt; slot.outcome == *outcome);
    let reply = match outcome {
        Outcome::Answered(_) => framed(text.as_bytes()),
        _ => [b'.'; REPLY],
    };
    assert!(rt; slot.reply == reply);
}

// Calls are replayed over a space, with so many places. Nothing comes into those behind the last call. Whether a reply is owed
// at the end is as expected, and the space is given back.
fn replays<S: Space + Drop>(
    rt: &impl Abort,
    space: S,
    turns: &[Turn<'static>],
    places: usize,
    owes: bool,
) -> S {
    let mut calls: [Call<'static>; MOST] = [Call::Hear(b""); MOST];
    for (place, (call, _, _)) in calls.iter_mut().zip(turns) {
        *place = *call;
    }
    let calls = &calls[..turns.len().min(MOST)];
    let mut slots = [empty(); MOST];
    let slots = &mut slots[..places.min(MOST)];
    let (owed, space) = replay_over(space, calls, slots);
    assert!(rt; owed == owes);
    for (slot, turn) in slots.iter().zip(turns) {
        came(rt, slot, turn);
    }
    for slot in slots.iter().skip(turns.len()) {
        assert!(rt; slot.outcome == Outcome::Answered(0) && slot.reply == [b'.'; REPLY]);
    }
    space
}

// `D`, as it is sent.
const PACKET: Call<'static> = Call::Hear(b"$D#44");

const HEARD: Outcome<'static> = Outcome::Heard(Item::Packet { payload: b"D" });

// Address 1 is set to ee at depth 0.
const FILE: Call<'static> = Call::Apply(b"\x01\0\0\0\0\0\0\0\0\x01\0\0\xee\0\0\0");

const IN_TURN: &[Turn<'static>] = &[
    (Call::Answer(b"M0,1:ff"), Outcome::NotAllowed, ""),
    (Call::Hear(b"+"), Outcome::Heard(Item::Ignored), ""),
    (Call::Answer(b"M0,1:ff"), Outcome::NotAllowed, ""),
    (
        Call::Hear(b"$?#3f"),
        Outcome::Heard(Item::Packet { payload: b"?" }),
        "",
    ),
    (Call::Hear(b"$M0,1:ff#e0"), Outcome::NotAllowed, ""),
    // a payload that was not heard is answered like any other
    (Call::Answer(b"m0,2"), Outcome::Answered(8), "0001"),
    (Call::Answer(b"M0,1:ff"), Outcome::NotAllowed, ""),
    (FILE, Outcome::Applied(Ok(1)), ""),
    (
        Call::Hear(b"$g#67$?#3f"),
        Outcome::Heard(Item::Packet { payload: b"g" }),
        "",
    ),
    (Call::Hear(b"-"), Outcome::NotAllowed, ""),
    (
        Call::Apply(b"short"),
        Outcome::Applied(Err(Stopped {
            refusal: PatchFileRefusal::BadLength,
            index: 0,
        })),
        "",
    ),
    (Call::Answer(b"m0,2"), Outcome::Answered(8), "00ee"),
];

// A call that is not allowed changes neither the depth nor the last fault.
const NOT_ALLOWED: &[Turn<'static>] = &[
    (PACKET, HEARD, ""),
    (Call::Answer(b"Qaisle.depth:02"), Outcome::Answered(6), "OK"),
    (Call::Answer(b"Qaisle.depth:00"), Outcome::NotAllowed, ""),
    (PACKET, HEARD, ""),
    (Call::Answer(b"mc,1"), Outcome::Answered(7), "E77"),
    (Call::Answer(b"m10,1"), Outcome::NotAllowed, ""),
    (PACKET, HEARD, ""),
    (PACKET, Outcome::NotAllowed, ""),
    (
        Call::Answer(b"qaisle.fault"),
        Outcome::Answered(26),
        "03,0000000000000010,77",
    ),
    (PACKET, HEARD, ""),
    (Call::Answer(b"M4,1:aa"), Outcome::Answered(6), "OK"),
    (Call::Answer(b"M5,1:bb"), Outcome::NotAllowed, ""),
];

// Address 4 is patched at depth 2, and 5 is not.
const PATCHED: &[(&str, &str)] = &[
    ("m0,2", "aa05"),
    ("Qaisle.depth:02", "OK"),
    ("M4,1:ab", "OK"),
    ("m0,2", "ab05"),
];

#[test]
fn calls_in_turn(rt: HostRuntime) {
    replays(&rt, counting(4), IN_TURN, 12, false);
    let space = replays(&rt, windowed(), NOT_ALLOWED, 12, false);
    dialogue(&rt, space, PATCHED);
}

const WITHOUT_PLACES: &[Turn<'static>] = &[
    (PACKET, HEARD, ""),
    (Call::Answer(b"M0,1:ff"), Outcome::Answered(6), "OK"),
    (PACKET, HEARD, ""),
    // for these there is no place
    (Call::Answer(b"M1,1:ff"), Outcome::NotAllowed, ""),
    (FILE, Outcome::NotAllowed, ""),
];

const WITH_PLACES: &[Turn<'static>] = &[(PACKET, HEARD, ""), (FILE, Outcome::Applied(Ok(1)), "")];

const WITHOUT_PLACE: &[Turn<'static>] = &[(FILE, Outcome::NotAllowed, "")];

#[test]
fn fewer_or_more_places_than_calls(rt: HostRuntime) {
    let space = replays(&rt, counting(4), WITHOUT_PLACES, 3, true);
    dialogue(&rt, space, &[("m0,2", "ff01")]);
    let space = replays(&rt, counting(4), WITH_PLACES, 4, true);
    dialogue(&rt, space, &[("m0,2", "00ee")]);
    replays(&rt, counting(4), &[], 1, false);
    let space = replays(&rt, counting(4), WITHOUT_PLACE, 0, false);
    dialogue(&rt, space, &[("m0,2", "0001")]);
}
