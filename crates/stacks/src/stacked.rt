use crate::steps::Step::{self, Byte, Clear, Fill, Set};
use crate::steps::steps;
use outsiders::Ramp;
use overlays::Overlay;
use spaces::{EditRefusal, Fault};

const MIDDLE: &[Step] = &[
    Set(1, 2, b"mid", Ok(())),
    Fill(0, b"\x00\x01mid\x05\x06\x07", 8, None),
    Clear(0, 0, 8, Ok(())),
    Clear(2, 0, 8, Ok(())),
    Byte(2, Ok(b'm')),
    Clear(1, 3, 1, Ok(())),
    Byte(2, Ok(b'm')),
    Byte(3, Ok(3)),
    Byte(4, Ok(b'd')),
];

// The upper one covers the lower.
const COVERED: &[Step] = &[
    Set(2, 0, b"low", Ok(())),
    Set(1, 1, b"m", Ok(())),
    Set(0, 1, b"t", Ok(())),
    Byte(0, Ok(b'l')),
    Byte(1, Ok(b't')),
    Clear(0, 1, 1, Ok(())),
    Byte(1, Ok(b'm')),
    Clear(1, 1, 1, Ok(())),
    Byte(1, Ok(b'o')),
    Clear(2, 1, 1, Ok(())),
    Byte(1, Ok(1)),
];

// Each overlay has room for 256 patches of its own.
const LIMITS: &[Step] = &[
    Set(1, 0, &[1; 256], Ok(())),
    Set(1, 256, &[1], Err(EditRefusal::TooManyPatches)),
    Set(0, 256, &[1; 256], Ok(())),
    Set(2, 256, &[1; 256], Ok(())),
    Set(3, 0, &[1], Err(EditRefusal::NoOverlay)),
];

// A fault climbs through all.
const CLIMBED: &[Step] = &[Byte(
    8,
    Err(Fault {
        depth: 3,
        address: 8,
        cause: 0x77,
    }),
)];

// Each over three overlays over eight bytes that count up.
#[test]
fn three_overlays(rt: HostRuntime) {
    for turns in [MIDDLE, COVERED, LIMITS, CLIMBED] {
        let lower = Overlay::new(Overlay::new(Ramp { length: 8 }));
        steps(&rt, &mut Overlay::new(lower), turns);
    }
}
