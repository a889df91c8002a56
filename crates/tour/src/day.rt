// The engineers' day over the sample cart, as a replay of a session's calls.

use crate::tell::tell_text;
use carts::{RANGES, load_cart};
use images::LimeRange;
use packets::{Item, REPLY};
use patchfiles::Stopped;
use replays::{Call, Outcome, Slot, Stage, replay};
use spaces::Space;
use std::{fs, io};

const CALLS: usize = 23;

pub(crate) fn replay_day(rt: &HostRuntime) -> io::Result<()> {
    let dump = fs::read(rt, "aisle.lime")?;
    let root = fs::read(rt, "root.bin")?;
    let costs = fs::read(rt, "costs.patches")?;
    let early = fs::read(rt, "early.patches")?;
    let mut memory = [LimeRange::default(); RANGES];
    println!(rt; "the engineers' day")?;
    match load_cart(&dump, &root, &mut memory) {
        Ok(cart) => tell_day(rt, cart, &costs, &early),
        Err(refusal) => println!(rt; "  refused {refusal}"),
    }
}

// They read over the end of a page, ask for the fault, give the next page its entry, apply patch files, and read again.
fn tell_day<'f, S: Space + Drop>(
    rt: &HostRuntime,
    cart: S,
    costs: &'f [u8],
    early: &'f [u8],
) -> io::Result<()> {
    let calls: [Call<'_>; CALLS] = [
        Call::Hear(b"+$mffc,8#00"),
        Call::Hear(b"$mffc,8#00"),
        Call::Answer(b"mffc,8"),
        Call::Hear(b"$qaisle.fault#c9"),
        Call::Hear(b"-"),
        Call::Answer(b"qaisle.fault"),
        Call::Answer(b"qaisle.fault"),
        Call::Hear(b"$Qaisle.depth:02#3e"),
        Call::Answer(b"Qaisle.depth:02"),
        Call::Hear(b"$M4008,2:0350#79"),
        Call::Answer(b"M4008,2:0350"),
        Call::Hear(b"$m1ffc,4#2d"),
        Call::Answer(b"m1ffc,4"),
        Call::Apply(costs),
        Call::Hear(b"$m1ffc,4#2d"),
        Call::Apply(early),
        Call::Answer(b"m1ffc,4"),
        Call::Apply(b"no patch file"),
        Call::Hear(b"$m1ffc,4#2d"),
        Call::Answer(b"m1ffc,4"),
        Call::Hear(b"$m1ffc,4#2e"),
        Call::Hear(b"$D#44"),
        Call::Answer(b"D"),
    ];
    let mut slots = [Slot::empty(); CALLS];
    run(cart, &calls, &mut slots);
    for (call, slot) in calls.iter().zip(&slots) {
        tell_call(rt, *call)?;
        tell_outcome(rt, slot)?;
    }
    Ok(())
}

// The calls are made over a new session. Once it is over, a reply that is still owed is answered.
fn run<'a, S: Space + Drop>(cart: S, calls: &[Call<'a>], slots: &mut [Slot<'a>]) {
    let (stage, mut server) = replay(cart, calls, slots);
    let talk = match stage {
        Stage::Waits(talk) => talk,
        Stage::Owes(owed) => {
            let mut reply = Slot::empty().reply;
            server.answer(owed, b"", &mut reply).0
        }
    };
    let _cart = server.close(talk);
}

fn tell_call(rt: &HostRuntime, call: Call<'_>) -> io::Result<()> {
    match call {
        Call::Hear(received) => {
            print!(rt; "  hear ")?;
            tell_text(rt, received)
        }
        Call::Answer(payload) => {
            print!(rt; "  answer ")?;
            tell_text(rt, payload)
        }
        Call::Apply(file) => {
            let count = file.len();
            print!(rt; "  apply {count} bytes")
        }
    }
}

fn tell_outcome(rt: &HostRuntime, slot: &Slot<'_>) -> io::Result<()> {
    print!(rt; ": ")?;
    match slot.outcome {
        Outcome::NotAllowed => println!(rt; "not allowed now"),
        Outcome::Heard(item) => tell_heard(rt, item),
        Outcome::Answered(count) => {
            tell_text(rt, &slot.reply[..count.min(REPLY)])?;
            println!(rt; "")
        }
        Outcome::Applied(applied) => tell_applied(rt, applied),
    }
}

fn tell_heard(rt: &HostRuntime, item: Item<'_>) -> io::Result<()> {
    match item {
        Item::Packet { .. } => println!(rt; "a packet"),
        Item::Resend => println!(rt; "the latest reply is asked for again"),
        Item::Ignored => println!(rt; "a byte that is ignored"),
        Item::Unfinished => println!(rt; "nothing whole"),
        Item::WrongSum { .. } => println!(rt; "a wrong sum"),
        Item::NoEnd => println!(rt; "a frame without an end"),
    }
}

fn tell_applied(rt: &HostRuntime, applied: Result<usize, Stopped>) -> io::Result<()> {
    match applied {
        Ok(count) => println!(rt; "records: {count}"),
        Err(stopped) => {
            let refusal = stopped.refusal;
            let index = stopped.index;
            println!(rt; "refused {refusal} at record {index}")
        }
    }
}
