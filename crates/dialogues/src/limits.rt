use crate::piles::counting;
use crate::session::{dialogue, replies, reply, session_over, space_of};
use packets::PAYLOAD;

const DIGITS: [u8; 16] = *b"0123456789abcdef";

// The digits of 2,048 bytes that count up from 0, a high one at each even place and a low one at each odd.
fn counted_up() -> [u8; PAYLOAD] {
    let mut text = [b'0'; PAYLOAD];
    for (slot, n) in text.iter_mut().zip(0usize..) {
        let b = n / 2;
        let digit = if n % 2 == 0 { b / 16 } else { b };
        *slot = DIGITS[digit % 16];
    }
    text
}

// A length of the space, a read over it, how many bytes are told, and the last fault behind it.
const READS: &[(u64, &str, usize, &str)] = &[
    (0x10_0000, "m0,7ff", 2_047, "none"),
    (0x10_0000, "m0,800", 2_048, "none"),
    (0x10_0000, "m0,801", 2_048, "none"),
    (0x10_0000, "m0,1000", 2_048, "none"),
    (0x10_0000, "m0,ffffffffffffffff", 2_048, "none"),
    // 300 has 00 again
    (0x10_0000, "m300,801", 2_048, "none"),
    (0x10_0000, "m500,ffffffffffff0000", 2_048, "none"),
    // a fault behind these addresses is not met
    (2_048, "m0,801", 2_048, "none"),
    (2_047, "m0,801", 2_047, "01,00000000000007ff,77"),
    (
        2_047,
        "m0,ffffffffffffffff",
        2_047,
        "01,00000000000007ff,77",
    ),
    (2_047, "m0,7ff", 2_047, "none"),
];

#[test]
fn at_most_2048_addresses(rt: HostRuntime) {
    let text = counted_up();
    for (length, payload, bytes, fault) in READS {
        let told = &text[..2 * (*bytes).min(2_048)];
        let session = reply(
            &rt,
            session_over(counting(*length)),
            payload.as_bytes(),
            told,
        );
        let _ = space_of(replies(&rt, session, &[("qaisle.fault", *fault)]));
    }
}

// The last address is read and patched like any other.
const LAST_ADDRESS: &[(&str, &str)] = &[
    ("mffffffffffffffff,1", "E77"),
    ("qaisle.fault", "01,ffffffffffffffff,77"),
    ("Mffffffffffffffff,1:5A", "OK"),
    ("mffffffffffffffff,1", "5a"),
    ("Mfffffffffffffffe,2:1234", "OK"),
    ("mfffffffffffffffe,2", "1234"),
    ("mfffffffffffffffd,3", "E77"),
    ("qaisle.fault", "01,fffffffffffffffd,77"),
];

#[test]
fn the_last_address(rt: HostRuntime) {
    dialogue(&rt, counting(16), LAST_ADDRESS);
}

// A write of so many bytes, each 55, behind what comes before its digits.
fn write<'a>(place: &[u8], bytes: u16, payload: &'a mut [u8; PAYLOAD]) -> &'a [u8] {
    let start = place.len().min(PAYLOAD);
    payload[..start].copy_from_slice(&place[..start]);
    payload[start..].fill(b'5');
    &payload[..(start + 2 * bytes as usize).min(PAYLOAD)]
}

// With patches at addresses 0 to ff.
const FULL: &[(&str, &str)] = &[
    ("M100,1:00", "E27"),
    ("Mff,2:0000", "E27"),
    ("mfe,4", "55550001"),
    // one that is patched can be patched anew
    ("M0,1:11", "OK"),
    ("Mff,1:22", "OK"),
    ("mfe,4", "55220001"),
    ("M100,1:00", "E27"),
    ("qaisle.fault", "none"),
];

#[test]
fn no_more_than_256_patches(rt: HostRuntime) {
    let mut payload = [0; PAYLOAD];
    let written = write(b"M0,100:", 256, &mut payload);
    let session = reply(&rt, session_over(counting(0x200)), written, b"OK");
    let _ = space_of(replies(&rt, session, FULL));
}

// Writes of more bytes than there can be patches, each with its place, the number of its bytes and the reply.
const LONG_WRITES: &[(&str, u16, &str)] = &[
    ("M0,101:", 0x101, "E27"),
    // the longest payload
    ("M00,7fc:", 0x7fc, "E27"),
    // it ends at the last address
    ("Mfffffffffffffefe,102:", 0x102, "E27"),
    ("Mfffffffffffffeff,102:", 0x102, "E25"),
    ("Mfffffffffffffffe,102:", 0x102, "E25"),
    ("M0,101:", 0x102, "E24"),
];

// No byte is patched.
const AS_BEFORE: &[(&str, &str)] = &[("m0,2", "0001"), ("mfe,4", "feff0001")];

#[test]
fn long_writes(rt: HostRuntime) {
    for (place, bytes, text) in LONG_WRITES {
        let mut payload = [0; PAYLOAD];
        let written = write(place.as_bytes(), *bytes, &mut payload);
        let session = reply(&rt, session_over(counting(0x200)), written, text.as_bytes());
        let _ = space_of(replies(&rt, session, AS_BEFORE));
    }
}
