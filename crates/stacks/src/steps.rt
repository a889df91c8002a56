use spaces::{EditRefusal, Fault, Space, Watched, locate, watched_set};
use std::process::Abort;

// What is done to a space, and what it answers.
#[derive(Clone, Copy)]
pub(crate) enum Step<'a> {
    // A set at a depth, from an address on.
    Set(u8, u64, &'a [u8], Result<(), EditRefusal>),
    // A clear of so many addresses.
    Clear(u8, u64, u64, Result<(), EditRefusal>),
    // A read of an address.
    Byte(u64, Result<u8, Fault>),
    // Reads of as many addresses, one by one.
    Bytes(u64, &'a [u8]),
    // A fill of a buffer of dots, as long as what it is afterwards; how many bytes there are, and the fault.
    Fill(u64, &'a [u8], usize, Option<Fault>),
    // Where the fault of an address arose, or its byte.
    Located(u64, Result<u8, Fault>),
    // A set, and one address before and after it.
    Watch(u8, u64, &'a [u8], u64, Watched),
}

fn reads<S: Space>(rt: &impl Abort, space: &S, first: u64, expected: &[u8]) {
    for (n, byte) in expected.iter().enumerate() {
        let at = first.saturating_add(n as u64);
        assert!(rt; space.byte(at) == Ok(*byte), "{at:x}");
    }
}

fn fills<S: Space>(
    rt: &impl Abort,
    space: &S,
    first: u64,
    expected: &[u8],
    count: usize,
    met: Option<Fault>,
) {
    let mut out = [b'.'; 16];
    let out = &mut out[..expected.len().min(16)];
    let answer = space.fill(first, out);
    assert!(rt; answer == (count, met), "{first:x}");
    assert!(rt; &*out == expected, "{first:x}");
}

fn takes<S: Space>(rt: &impl Abort, space: &mut S, step: Step) {
    match step {
        Step::Set(depth, first, bytes, outcome) => {
            assert!(rt; space.set(depth, first, bytes) == outcome, "{first:x}");
        }
        Step::Clear(depth, first, count, outcome) => {
            assert!(rt; space.clear(depth, first, count) == outcome, "{first:x}");
        }
        Step::Byte(at, answer) => assert!(rt; space.byte(at) == answer, "{at:x}"),
        Step::Bytes(first, expected) => reads(rt, space, first, expected),
        Step::Fill(first, expected, count, met) => fills(rt, space, first, expected, count, met),
        Step::Located(at, answer) => assert!(rt; locate(space, at) == answer, "{at:x}"),
        Step::Watch(depth, first, bytes, at, watched) => {
            assert!(rt;
                watched_set(space, depth, first, bytes, at) == watched,
                "{first:x}"
            );
        }
    }
}

// A space takes these steps in turn.
pub(crate) fn steps<S: Space>(rt: &impl Abort, space: &mut S, steps: &[Step]) {
    for step in steps {
        takes(rt, space, *step);
    }
}
