use crate::steps::Step::{self, Byte, Clear, Fill, Set};
use crate::steps::steps;
use outsiders::{Ramp, Window};
use spaces::{EditRefusal, Fault};

// Behind the last byte below.
const BELOW: Fault = Fault {
    depth: 2,
    address: 10,
    cause: 0x77,
};

const STACKED: &[Step] = &[
    Byte(0, Ok(6)),
    Byte(3, Ok(9)),
    Fill(2, b"\x08\x09...", 2, Some(BELOW)),
    Byte(4, Err(BELOW)),
    Byte(
        6,
        Err(Fault {
            depth: 0,
            address: 6,
            cause: 0x78,
        }),
    ),
    Set(0, 0, b"x", Err(EditRefusal::NoOverlay)),
    Set(2, u64::MAX, b"xy", Err(EditRefusal::PastTheEnd)),
    Clear(1, 0, 9, Err(EditRefusal::NoOverlay)),
    Byte(0, Ok(6)),
];

// The last four bytes of a ramp of ten, and two addresses behind them, through two windows.
#[test]
fn window_on_a_window(rt: HostRuntime) {
    let below = Window {
        start: 4,
        length: 100,
        below: Ramp { length: 10 },
    };
    let mut space = Window {
        start: 2,
        length: 6,
        below,
    };
    steps(&rt, &mut space, STACKED);
}
