use crate::piles::counting;
use crate::session::{hear_other, hear_packet, replies, session_over, space_of};
use packets::Item;
use std::process::Abort;

// A session that has a patch, a fault and a depth.
const BEFORE: &[(&str, &str)] = &[
    ("M1,1:ee", "OK"),
    ("m4,1", "E77"),
    ("Qaisle.depth:09", "OK"),
];

// It has them still.
const AFTER: &[(&str, &str)] = &[
    ("qaisle.fault", "01,0000000000000004,77"),
    ("m0,4", "00ee0203"),
    ("M0,1:00", "E26"),
];

fn hears_no_packet(rt: &impl Abort, received: &[u8], expected: Item) {
    let session = replies(rt, session_over(counting(4)), BEFORE);
    let session = hear_other(rt, session, received, expected);
    let _ = space_of(replies(rt, session, AFTER));
}

const NO_PACKETS: &[(&[u8], Item)] = &[
    (b"", Item::Unfinished),
    (b"$", Item::Unfinished),
    (b"$M0,1:ff", Item::Unfinished),
    (b"$M0,1:ff#", Item::Unfinished),
    (b"$M0,1:ff#e", Item::Unfinished),
    (b"-", Item::Resend),
    (b"-$g#67", Item::Resend),
    (b"+", Item::Ignored),
    (b"+$M0,1:ff#e0", Item::Ignored),
    (b"\x03", Item::Ignored),
    (b"M0,1:ff#e0", Item::Ignored),
    (b"$M0,1:ff#00", Item::WrongSum { used: 11 }),
    (b"$M0,1:ff#zz", Item::WrongSum { used: 11 }),
    (b"$M0,1:ff#0e", Item::WrongSum { used: 11 }),
    (b"$#01$g#67", Item::WrongSum { used: 4 }),
];

#[test]
fn no_packets(rt: HostRuntime) {
    for (received, expected) in NO_PACKETS {
        hears_no_packet(&rt, received, *expected);
    }
    // a frame without an end
    let mut received = [b'a'; 4_098];
    received[0] = b'$';
    hears_no_packet(&rt, &received[..4_097], Item::Unfinished);
    hears_no_packet(&rt, &received, Item::NoEnd);
}

// A packet is heard whatever comes behind it, and uses its own bytes alone.
const PACKETS: &[(&str, &str, usize)] = &[
    ("$#00", "", 4),
    ("$g#67$?#3f", "g", 5),
    ("$M0,1:ff#E0+", "M0,1:ff", 11),
    ("$a$b#e7-", "a$b", 7),
];

#[test]
fn packets_heard(rt: HostRuntime) {
    for (received, payload, used) in PACKETS {
        let payload = payload.as_bytes();
        let session = session_over(counting(4));
        let _ = space_of(hear_packet(&rt, session, received.as_bytes(), payload));
        assert!(rt; Item::Packet { payload }.used() == *used, "{received}");
    }
}
