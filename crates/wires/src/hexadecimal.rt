use packets::digits::{byte, bytes, number, of, spell};
use std::test::Fail;

const LAST: u64 = u64::MAX;

const NUMBERS: &[(&str, Option<u64>)] = &[
    ("0", Some(0)),
    ("a", Some(10)),
    ("0F", Some(15)),
    ("10", Some(16)),
    ("0123456789abcdef", Some(0x0123_4567_89ab_cdef)),
    ("fEdCbA9876543210", Some(0xfedc_ba98_7654_3210)),
    ("0000000000000000", Some(0)),
    ("8000000000000000", Some(1 << 63)),
    ("ffffffffffffffff", Some(LAST)),
    ("FFFFFFFFFFFFFFFF", Some(LAST)),
    // none, and 17
    ("", None),
    ("00000000000000000", None),
    ("00000000000000001", None),
    ("10000000000000000", None),
    // a byte that is no digit, first, last and within
    ("+1", None),
    ("1 ", None),
    ("0x1", None),
];

#[test]
fn numbers_in_digits(rt: HostRuntime) {
    for (digits, expected) in NUMBERS {
        assert!(rt; number(digits.as_bytes()) == *expected, "{digits}");
    }
}

// Of all bytes just these are digits, each with its place as its value.
#[test]
fn bytes_in_digits(rt: HostRuntime) {
    let mut values = [None; 256];
    for digits in [b"0123456789abcdef", b"0123456789ABCDEF"] {
        for (digit, value) in digits.iter().zip(0..) {
            values[*digit as usize] = Some(value);
        }
    }
    for (c, value) in (0..=255).zip(values) {
        let read = (byte([b'9', c]), byte([c, b'6']), number(&[c]));
        let expected = (
            value.map(|v| 0x90 | v),
            value.map(|v| v << 4 | 6),
            value.map(u64::from),
        );
        assert!(rt; read == expected, "{c}");
    }
}

// Where there are too few digits for a number, its lowest.
const DIGITS: &[(u64, &[u8; 2], &[u8; 16])] = &[
    (0, b"00", b"0000000000000000"),
    (9, b"09", b"0000000000000009"),
    (10, b"0a", b"000000000000000a"),
    (0xf0, b"f0", b"00000000000000f0"),
    (0x100, b"00", b"0000000000000100"),
    (0x0123_4567_89ab_cdef, b"ef", b"0123456789abcdef"),
    (0xfedc_ba98_7654_3210, b"10", b"fedcba9876543210"),
    (1 << 63, b"00", b"8000000000000000"),
    (LAST, b"ff", b"ffffffffffffffff"),
];

#[test]
fn digits_of_numbers(rt: HostRuntime) {
    for (value, two, all) in DIGITS {
        assert!(rt;
            of::<2>(*value) == **two && of::<16>(*value) == **all,
            "{value}"
        );
    }
    assert!(rt; of::<0>(5).is_empty() && of::<1>(0xfc) == *b"c");
    assert!(rt; of::<17>(LAST) == *b"0ffffffffffffffff");
}

// Each with the room that there is, the number that is answered and the buffer.
const SPELLED: &[(&[u8], usize, usize, &[u8; 8])] = &[
    (b"", 8, 0, b"........"),
    (b"\x01\xab\xff", 1, 0, b"........"),
    (b"\x01\xab\xff", 2, 2, b"01......"),
    (b"\x01\xab\xff", 3, 2, b"01......"),
    (b"\x01\xab\xff", 5, 4, b"01ab...."),
    (b"\x01\xab\xff", 6, 6, b"01abff.."),
    (b"\x01\xab\xff", 7, 6, b"01abff.."),
    (b"\x01\xab\xff", 8, 6, b"01abff.."),
];

#[test]
fn bytes_are_spelled(rt: HostRuntime) {
    for (text, room, count, expected) in SPELLED {
        let mut out = *b"........";
        let length = spell(text, &mut out[..(*room).min(8)]);
        assert!(rt; length == *count && out == **expected, "room {room}");
    }
}

// All bytes in their order are each digit before each digit, in theirs.
#[test]
fn every_byte_is_spelled(rt: HostRuntime) -> Result<(), Fail> {
    let mut every = Vec::new(rt.alloc());
    for b in 0..=255 {
        every.push(b)?;
    }
    let mut expected = Vec::new(rt.alloc());
    for high in b"0123456789abcdef" {
        for low in b"0123456789abcdef" {
            expected.push(*high)?;
            expected.push(*low)?;
        }
    }
    let mut out = [b'.'; 512];
    let count = spell(&every, &mut out);
    assert!(rt; count == 512 && out.as_slice() == expected.as_slice());
    Ok(())
}

// Each with its room, the number that is answered and the buffer.
const READ: &[(&str, usize, usize, &[u8; 4])] = &[
    ("", 4, 0, b"...."),
    ("010a1f", 4, 3, b"\x01\x0a\x1f."),
    ("010A1F", 3, 3, b"\x01\x0a\x1f."),
    ("010a1f", 2, 2, b"\x01\x0a.."),
    ("010a1f", 0, 0, b"...."),
    // an odd digit
    ("0", 4, 0, b"...."),
    ("010a1", 4, 2, b"\x01\x0a.."),
    // a pair that is none, by its first or its second
    ("g102", 4, 0, b"...."),
    ("01g02d", 4, 1, b"\x01..."),
    ("010g2d", 4, 1, b"\x01..."),
    ("010a1fzz", 4, 3, b"\x01\x0a\x1f."),
    ("010azz", 2, 2, b"\x01\x0a.."),
];

#[test]
fn bytes_are_read(rt: HostRuntime) {
    for (digits, room, count, expected) in READ {
        let mut out = *b"....";
        let length = bytes(digits.as_bytes(), &mut out[..(*room).min(4)]);
        assert!(rt;
            length == *count && out == **expected,
            "{digits}, room {room}"
        );
    }
}
