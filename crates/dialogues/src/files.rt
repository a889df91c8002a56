use crate::piles::{counting, windowed};
use crate::session::{apply, replies, session_over, space_of};
use numbers::Numbered;
use patchfiles::{PatchFileRefusal, Stopped};
use spaces::EditRefusal;
use std::process::Abort;

type Raw = [u8; 16];

fn record(address: u64, depth: u8, kind: u8, value: u8) -> Raw {
    let [a, b, c, d, e, f, g, h] = address.to_le_bytes();
    [a, b, c, d, e, f, g, h, depth, kind, 0, 0, value, 0, 0, 0]
}

fn set(address: u64, depth: u8, value: u8) -> Raw {
    record(address, depth, 1, value)
}

fn clear(address: u64, depth: u8) -> Raw {
    record(address, depth, 0, 0)
}

fn stopped(refusal: PatchFileRefusal, index: usize) -> Result<usize, Stopped> {
    Err(Stopped { refusal, index })
}

// A session that has patched address 4 at depth 2 and met a fault.
const BEFORE: &[(&str, &str)] = &[
    ("Qaisle.depth:02", "OK"),
    ("M4,1:aa", "OK"),
    ("m10,1", "E78"),
];

// A file is applied to it in both of its states. Then it has the same fault, these bytes, and the same depth, at which it
// patches 5.
fn applies(rt: &impl Abort, file: &[u8], expected: Result<usize, Stopped>, bytes: &str) {
    let after = [
        ("qaisle.fault", "01,0000000000000010,78"),
        ("m0,10", bytes),
        ("M5,1:bb", "OK"),
        ("m1,1", "bb"),
    ];
    for owes in [false, true] {
        let session = replies(rt, session_over(windowed()), BEFORE);
        let session = apply(rt, session, owes, file, expected);
        let _ = space_of(replies(rt, session, &after));
    }
}

// What the session has where no record takes effect.
const SAME: &str = "aa05060708090a0b0c0d0e0f";

#[test]
fn records_take_effect(rt: HostRuntime) {
    let marks = [set(6, 2, 0x66), set(3, 0, 0), clear(4, 2)];
    let [first, second, _] = marks;
    applies(&rt, b"", Ok(0), SAME);
    applies(&rt, &first, Ok(1), "aa05660708090a0b0c0d0e0f");
    let two = [first, second];
    applies(&rt, two.as_flattened(), Ok(2), "aa05660008090a0b0c0d0e0f");
    applies(&rt, marks.as_flattened(), Ok(3), "0405660008090a0b0c0d0e0f");
    // nothing is patched there
    let idle = [clear(9, 2), clear(4, 0)];
    applies(&rt, idle.as_flattened(), Ok(2), SAME);
    // of two records for an address the later counts
    for (records, bytes) in [
        ([set(6, 2, 1), set(6, 2, 0xfe)], "aa05fe0708090a0b0c0d0e0f"),
        ([set(6, 2, 1), clear(6, 2)], SAME),
        ([clear(6, 2), set(6, 2, 1)], "aa05010708090a0b0c0d0e0f"),
    ] {
        applies(&rt, records.as_flattened(), Ok(2), bytes);
    }
}

// A file byte by byte: address 102030405060708 is set to 99 at depth 0, then the last address to 98.
#[test]
fn bytes_of_a_file(rt: HostRuntime) {
    let file = *b"\x08\x07\x06\x05\x04\x03\x02\x01\0\x01\0\0\x99\0\0\0\
        \xff\xff\xff\xff\xff\xff\xff\xff\0\x01\0\0\x98\0\0\0";
    let session = apply(&rt, session_over(counting(4)), false, &file, Ok(2));
    let session = replies(
        &rt,
        session,
        &[
            ("m0102030405060708,1", "99"),
            ("mffffffffffffffff,1", "98"),
            ("qaisle.fault", "none"),
        ],
    );
    let _ = space_of(session);
}

#[test]
fn refusals_have_their_numbers(rt: HostRuntime) {
    assert!(rt; PatchFileRefusal::BadLength.number() == 0x3a);
    assert!(rt; PatchFileRefusal::BadRecord.number() == 0x3b);
}

// It counts before the form of a record does.
#[test]
fn wrong_lengths(rt: HostRuntime) {
    for raw in [set(6, 2, 0x66), record(6, 2, 2, 0x66)] {
        let both = [raw, raw];
        for length in [1, 15, 17, 31] {
            let file = &both.as_flattened()[..length];
            applies(&rt, file, stopped(PatchFileRefusal::BadLength, 0), SAME);
        }
    }
}

// No record of such a file takes effect, and the first that is malformed is told.
fn malformed(rt: &impl Abort, raw: Raw) {
    let good = set(6, 2, 0x66);
    // and this one would be refused
    let early = set(6, 3, 0x66);
    for (records, index) in [
        ([raw, good, good], 0),
        ([good, raw, raw], 1),
        ([early, good, raw], 2),
    ] {
        let expected = stopped(PatchFileRefusal::BadRecord, index);
        applies(rt, records.as_flattened(), expected, SAME);
    }
}

#[test]
fn malformed_records(rt: HostRuntime) {
    for kind in [2, 3, 0x31, 0x80, 0xff] {
        malformed(&rt, record(6, 2, kind, 0));
    }
    // clears with values
    for value in [1, 0x80, 0xff] {
        malformed(&rt, record(6, 2, 0, value));
    }
    // unused bytes
    for kind in [0, 1] {
        for place in [10usize, 11, 13, 14, 15] {
            let mut raw = record(6, 2, kind, 0);
            raw[place] = 0x80 >> (place % 8);
            malformed(&rt, raw);
        }
    }
}

// Records before the first refused stay.
fn refused(rt: &impl Abort, raw: Raw) {
    let good = set(6, 2, 0x66);
    let other = set(7, 2, 0x77);
    let changed = "aa05660708090a0b0c0d0e0f";
    for (records, index, bytes) in [
        ([raw, good, other], 0, SAME),
        ([good, raw, other], 1, changed),
        ([good, clear(7, 2), raw], 2, changed),
    ] {
        let expected = stopped(PatchFileRefusal::Edit(EditRefusal::NoOverlay), index);
        applies(rt, records.as_flattened(), expected, bytes);
    }
}

#[test]
fn no_overlay(rt: HostRuntime) {
    for depth in [1, 3, 4, 0xff] {
        refused(&rt, set(6, depth, 1));
        refused(&rt, clear(6, depth));
    }
}

// At the 257th address a file stops. One is taken back, and another takes its place.
#[test]
fn too_many_patches(rt: HostRuntime) {
    let mut full = [set(0, 0, 0x5b); 258];
    for (slot, address) in full.iter_mut().zip(0..257) {
        *slot = set(address, 0, 0x5a);
    }
    let stop = stopped(PatchFileRefusal::Edit(EditRefusal::TooManyPatches), 256);
    let session = apply(
        &rt,
        session_over(counting(0x200)),
        false,
        full.as_flattened(),
        stop,
    );
    let there = [("m0,2", "5a5a"), ("mfe,4", "5a5a0001")];
    let session = replies(&rt, session, &there);
    let other = [clear(0, 0), set(0x100, 0, 0x5b)];
    let session = apply(&rt, session, true, other.as_flattened(), Ok(2));
    let there = [("m0,2", "005a"), ("mfe,4", "5a5a5b01"), ("M0,1:00", "E27")];
    let _ = space_of(replies(&rt, session, &there));
}
