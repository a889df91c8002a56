use crate::steps::Step::{self, Located, Watch};
use crate::steps::steps;
use outsiders::{Ramp, Spare, Window, byte_in_window, patch_under_window};
use overlays::Overlay;
use spaces::{EditRefusal, Fault, Watched};

// A window on addresses 4 to 19 of an overlay on sixteen bytes that count up.
fn window() -> Window<Overlay<Ramp>> {
    Window {
        start: 4,
        length: 16,
        below: Overlay::new(Ramp { length: 16 }),
    }
}

// What 12 has: it is 16 below the window and the ramp ends there; the spare of 12 is 20, which the window does not show.
const TWELVE: Fault = Fault {
    depth: 3,
    address: 20,
    cause: 0x78,
};

const FAULTS: &[Step] = &[
    Located(0, Ok(4)),
    Located(11, Ok(15)),
    Located(12, Err(TWELVE)),
    // the spare of the last address is none
    Located(
        u64::MAX,
        Err(Fault {
            depth: 3,
            address: u64::MAX,
            cause: 0x78,
        }),
    ),
];

// A patch on the trail of address 0 shows.
const ON_THE_TRAIL: &[Step] = &[
    Watch(
        4,
        4,
        b"L",
        0,
        Watched {
            before: Ok(4),
            outcome: Ok(()),
            after: Ok(b'L'),
        },
    ),
    Watch(
        2,
        0,
        b"M",
        0,
        Watched {
            before: Ok(b'L'),
            outcome: Ok(()),
            after: Ok(b'M'),
        },
    ),
    Watch(
        0,
        0,
        b"T",
        0,
        Watched {
            before: Ok(b'M'),
            outcome: Ok(()),
            after: Ok(b'T'),
        },
    ),
];

// One off the trail does not: address 0 rests on 4 in the lowest overlay, and where 4 has a byte, not on its spare.
const OFF_THE_TRAIL: &[Step] = &[
    Watch(
        4,
        5,
        b"aside",
        0,
        Watched {
            before: Ok(4),
            outcome: Ok(()),
            after: Ok(4),
        },
    ),
    Watch(
        2,
        0,
        b"M",
        0,
        Watched {
            before: Ok(4),
            outcome: Ok(()),
            after: Ok(b'M'),
        },
    ),
    // under a patch nothing is read any more
    Watch(
        4,
        4,
        b"L",
        0,
        Watched {
            before: Ok(b'M'),
            outcome: Ok(()),
            after: Ok(b'M'),
        },
    ),
    Watch(
        3,
        0,
        b"W",
        0,
        Watched {
            before: Ok(b'M'),
            outcome: Err(EditRefusal::NoOverlay),
            after: Ok(b'M'),
        },
    ),
];

// Where an address has no byte, its spare answers, also a patched one.
const SPARE: &[Step] = &[
    Watch(
        2,
        20,
        b"S",
        12,
        Watched {
            before: Err(TWELVE),
            outcome: Ok(()),
            after: Ok(b'S'),
        },
    ),
    Watch(
        4,
        16,
        b"F",
        12,
        Watched {
            before: Ok(b'S'),
            outcome: Ok(()),
            after: Ok(b'F'),
        },
    ),
];

// Each over, from the top: overlay, spare copy 8 places on, overlay, that window.
#[test]
fn piles_with_foreign_layers(rt: HostRuntime) {
    for turns in [FAULTS, ON_THE_TRAIL, OFF_THE_TRAIL, SPARE] {
        let spare = Spare {
            offset: 8,
            below: Overlay::new(window()),
        };
        steps(&rt, &mut Overlay::new(spare), turns);
    }
}

// Each crate of tests has such a function of its own, as short as its tests want it.
fn fault(depth: u8, address: u64, cause: u8) -> Result<u8, Fault> {
    Err(Fault {
        depth,
        address,
        cause,
    })
}

#[test]
fn a_window_alone(rt: HostRuntime) {
    let mut window = window();
    assert!(rt; byte_in_window(&window, 12) == fault(2, 16, 0x77));
    assert!(rt; byte_in_window(&window, 16) == fault(0, 16, 0x78));
    let beside = patch_under_window(&mut window, 0, b"\xff\xff\xff\xff", 0);
    assert!(rt; beside.outcome == Ok(()) && beside.after == Ok(4));
    let inside = patch_under_window(&mut window, 1, b"\xff\xff\xff\xff", 0);
    assert!(rt; inside.after == Ok(0xff));
}
