use crate::piles::windowed;
use crate::session::{replies, reply, session_over, space_of};
use std::process::Abort;

// A session that has patched address 4 at depth 2 and met a fault.
const BEFORE: &[(&str, &str)] = &[
    ("Qaisle.depth:02", "OK"),
    ("M4,1:aa", "OK"),
    ("m10,1", "E78"),
];

// What it had: the fault, every byte, and the depth, at which it patches 5.
const AFTER: &[(&str, &str)] = &[
    ("qaisle.fault", "01,0000000000000010,78"),
    ("m0,10", "aa05060708090a0b0c0d0e0f"),
    ("qaisle.fault", "03,0000000000000010,77"),
    ("M5,1:bb", "OK"),
    ("m0,3", "aabb06"),
];

// Each payload is refused with this reply, and then the session shows what it had.
fn all_refused(rt: &impl Abort, payloads: &[&str], text: &str) {
    for payload in payloads {
        let session = replies(rt, session_over(windowed()), BEFORE);
        let session = reply(rt, session, payload.as_bytes(), text.as_bytes());
        let _ = space_of(replies(rt, session, AFTER));
    }
}

const WRONG_READS: &[&str] = &[
    "m",
    "m1",
    "m,1",
    "m1,",
    "m,",
    "mzz",
    "m1,z",
    "m1,1,1",
    "m 1,1",
    "m1;1",
    // 17 digits
    "m00000000000000001,1",
    "m1,00000000000000001",
    // first of all
    "mzz,0",
    "mffffffffffffffff,2z",
];

const WRONG_WRITES: &[&str] = &[
    "M",
    "M0,1",
    "M:",
    "M0:00",
    "M,1:00",
    "M0,:00",
    "M0,1:0g",
    "M0,1:zz",
    "M0,1:00:",
    "M00000000000000000,1:00",
    "M0,00000000000000001:00",
    // first of all
    "M0,0:zz",
    "M0,2:zz",
    "Mffffffffffffffff,2:zzzz",
];

const WRONG_DEPTHS: &[&str] = &[
    "Qaisle.depth:",
    "Qaisle.depth:5",
    "Qaisle.depth:zz",
    "Qaisle.depth:0z",
    "Qaisle.depth:000",
    "Qaisle.depth: 0",
];

const NO_ADDRESSES: &[&str] = &[
    "m10,0",
    "m0,0000000000000000",
    "mffffffffffffffff,0",
    "M10,0:",
    // nor as many digits
    "M10,0:00",
    "M10,0:0",
];

const WRONG_DIGITS: &[&str] = &[
    "M10,2:00",
    "M10,1:",
    "M10,1:0",
    "M10,1:000",
    "M10,1:0000",
    "M0,8000000000000000:",
    // and past the last address
    "Mffffffffffffffff,2:00",
];

const PAST_THE_END: &[&str] = &[
    "mffffffffffffffff,2",
    "m2,ffffffffffffffff",
    "m8000000000000000,8000000000000001",
    "Mffffffffffffffff,2:0000",
    "Mfffffffffffffffe,3:000000",
];

#[test]
fn refused_payloads(rt: HostRuntime) {
    all_refused(&rt, WRONG_READS, "E22");
    all_refused(&rt, WRONG_WRITES, "E22");
    all_refused(&rt, WRONG_DEPTHS, "E22");
    all_refused(&rt, NO_ADDRESSES, "E23");
    all_refused(&rt, WRONG_DIGITS, "E24");
    all_refused(&rt, PAST_THE_END, "E25");
}

// At another depth than those of the overlays a write is refused, by an earlier number where one applies.
const NO_OVERLAY: &[(&str, &str)] = &[
    ("mc,1", "E77"),
    ("M0,1:00", "E26"),
    ("Mffffffffffffffff,1:00", "E26"),
    ("Mffffffffffffffff,2:0000", "E25"),
    ("M0,2:00", "E24"),
    ("M0,0:", "E23"),
    ("M0,1:zz", "E22"),
    // it is refused again, so the depth is the same
    ("M4,1:00", "E26"),
    ("qaisle.fault", "03,0000000000000010,77"),
    ("m0,10", "0405060708090a0b0c0d0e0f"),
];

// The depth of the window, of the bytes below all, and of nothing.
const DEPTHS: &[&str] = &[
    "Qaisle.depth:01",
    "Qaisle.depth:03",
    "Qaisle.depth:04",
    "Qaisle.depth:ff",
];

#[test]
fn no_overlay(rt: HostRuntime) {
    for depth in DEPTHS {
        let session = reply(&rt, session_over(windowed()), depth.as_bytes(), b"OK");
        let _ = space_of(replies(&rt, session, NO_OVERLAY));
    }
}
