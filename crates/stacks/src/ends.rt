use crate::steps::Step::{self, Byte, Clear, Fill, Set};
use crate::steps::steps;
use outsiders::Ramp;
use overlays::Overlay;
use spaces::{EditRefusal, Fault};

const LAST: u64 = u64::MAX;

const MANY: &[u8] = &[0; 257];

const SET_TO_THE_LAST: &[Step] = &[
    Set(0, LAST - 1, b"xy", Ok(())),
    Byte(LAST - 1, Ok(b'x')),
    Byte(LAST, Ok(b'y')),
    Set(0, LAST, b"yz", Err(EditRefusal::PastTheEnd)),
    Byte(LAST, Ok(b'y')),
    Fill(LAST - 1, b"xy..", 2, None),
];

const CLEAR_TO_THE_LAST: &[Step] = &[
    Set(0, LAST, b"y", Ok(())),
    Set(0, 0, b"x", Ok(())),
    Clear(0, 2, LAST, Err(EditRefusal::PastTheEnd)),
    Byte(LAST, Ok(b'y')),
    Clear(0, 0, LAST, Ok(())),
    Byte(LAST, Ok(b'y')),
    Byte(0, Ok(0)),
    Clear(0, 1, LAST, Ok(())),
    Byte(
        LAST,
        Err(Fault {
            depth: 1,
            address: LAST,
            cause: 0x77,
        }),
    ),
];

// The first refusal that applies counts.
const REFUSALS: &[Step] = &[
    Set(7, LAST - 1, MANY, Err(EditRefusal::PastTheEnd)),
    Set(0, LAST - 1, MANY, Err(EditRefusal::PastTheEnd)),
    Set(1, 0, MANY, Err(EditRefusal::NoOverlay)),
    Set(255, 0, b"x", Err(EditRefusal::NoOverlay)),
    Set(0, 0, MANY, Err(EditRefusal::TooManyPatches)),
    Clear(1, 0, 9, Err(EditRefusal::NoOverlay)),
    Byte(0, Ok(0)),
];

// An empty edit changes nothing.
const EMPTY: &[Step] = &[
    Set(0, 1, b"x", Ok(())),
    Set(0, 1, b"", Ok(())),
    Clear(0, 1, 0, Ok(())),
    Set(0, LAST, b"", Ok(())),
    Set(1, 1, b"", Err(EditRefusal::NoOverlay)),
    Clear(1, 1, 0, Err(EditRefusal::NoOverlay)),
    Byte(0, Ok(0)),
    Byte(1, Ok(b'x')),
];

// A patch stands where the space below has no byte, and a fill goes on over it.
const OVER_AN_ABSENT_BYTE: &[Step] = &[
    Set(0, 4, b"e", Ok(())),
    Fill(
        2,
        b"\x02\x03e.....",
        3,
        Some(Fault {
            depth: 1,
            address: 5,
            cause: 0x77,
        }),
    ),
];

// Each over an overlay of four bytes that count up.
#[test]
fn ends_and_refusals(rt: HostRuntime) {
    for turns in [
        SET_TO_THE_LAST,
        CLEAR_TO_THE_LAST,
        REFUSALS,
        EMPTY,
        OVER_AN_ABSENT_BYTE,
    ] {
        steps(&rt, &mut Overlay::new(Ramp { length: 4 }), turns);
    }
}
