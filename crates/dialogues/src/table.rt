use crate::piles::{counting, windowed};
use crate::session::{dialogue, framed, reply, session_over, space_of};

// Frames as the protocol's manual and GDB's logs have them, by which the frames of these tests are judged.
const FRAMES: &[(&str, &str)] = &[
    ("", "$#00."),
    ("OK", "$OK#9a."),
    ("S05", "$S05#b8."),
    ("E01", "$E01#a6."),
    ("41424344", "$41424344#9a."),
    ("mffc,8", "$mffc,8#00."),
    ("Qaisle.depth:02", "$Qaisle.depth:02#3e."),
    ("vMustReplyEmpty", "$vMustReplyEmpty#3a."),
];

#[test]
fn frames_of_these_tests(rt: HostRuntime) {
    for (text, frame) in FRAMES {
        assert!(rt;
            framed(text.as_bytes()).starts_with(frame.as_bytes()),
            "{text}"
        );
    }
}

const EACH_ROW: &[(&str, &str)] = &[
    ("?", "S05"),
    ("m5,3", "050607"),
    ("M6,2:aB3f", "OK"),
    ("m5,3", "05ab3f"),
    ("D", "OK"),
    ("H", "OK"),
    ("Hg0", "OK"),
    ("Hc-1", "OK"),
    ("qSupported", "PacketSize=1000"),
    ("qSupported:swbreak+;hwbreak+", "PacketSize=1000"),
    ("qSupportedly", "PacketSize=1000"),
    ("Qaisle.depth:00", "OK"),
    ("Qaisle.depth:fF", "OK"),
    ("qaisle.fault", "none"),
];

// What is patched stays when GDB has detached, and so do the edit depth and the last fault.
const DETACHED: &[(&str, &str)] = &[
    ("Qaisle.depth:02", "OK"),
    ("M4,1:aa", "OK"),
    ("mc,1", "E77"),
    ("D", "OK"),
    ("m0,1", "aa"),
    ("qaisle.fault", "03,0000000000000010,77"),
    ("M5,1:bb", "OK"),
    ("m0,2", "aabb"),
];

// The depth is that of the latest setting, of either case, and a new session's is 0.
const DEPTHS: &[(&str, &str)] = &[
    ("M0,1:a0", "OK"),
    ("m0,2", "a005"),
    ("Qaisle.depth:02", "OK"),
    ("M0,8:b0b1b2b3b4b5b6b7", "OK"),
    ("m0,6", "a0b5b6b70809"),
    ("Qaisle.depth:01", "OK"),
    ("M0,1:c0", "E26"),
    ("Qaisle.depth:0A", "OK"),
    ("M0,1:c0", "E26"),
    ("Qaisle.depth:00", "OK"),
    ("M1,1:d1", "OK"),
    ("m0,3", "a0d1b6"),
];

#[test]
fn each_row(rt: HostRuntime) {
    dialogue(&rt, counting(16), EACH_ROW);
    let _ = space_of(reply(&rt, session_over(counting(16)), b"g", &[b'x'; 328]));
    dialogue(&rt, windowed(), DETACHED);
    dialogue(&rt, windowed(), DEPTHS);
}

const UNKNOWN: &[&str] = &[
    "",
    "?x",
    "gg",
    "Dx",
    "D;1",
    "c",
    "G",
    "qC",
    "qSupporte",
    "qaisle.faults",
    "qaisle.faul",
    "Qaisle.depth",
    "Qaisle.fault",
    "qaisle.depth:00",
    "vMustReplyEmpty",
    "X0,1:\0",
];

#[test]
fn unknown_ones(rt: HostRuntime) {
    for payload in UNKNOWN {
        dialogue(&rt, counting(16), &[(*payload, "")]);
    }
}
