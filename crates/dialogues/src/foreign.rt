use crate::piles::{counting, spared, windowed};
use crate::session::dialogue;
use outsiders::{Ramp, Window};
use overlays::Overlay;

// A window, which is a walk: two reads of the same addresses agree when patches between them are off its trail.
const OFF_THE_TRAIL: &[(&str, &str)] = &[
    // addresses 0 to 3 rest on 4 to 7 at depth 2
    ("m0,4", "04050607"),
    ("Qaisle.depth:02", "OK"),
    ("M0,4:fffefdfc", "OK"),
    ("M8,2:fffe", "OK"),
    ("M14,1:ff", "OK"),
    ("m0,4", "04050607"),
    ("M7,1:ff", "OK"),
    ("m0,4", "040506ff"),
];

// A fault's trail ends at the address without a byte, so a patch behind it changes nothing.
const BEHIND_A_FAULT: &[(&str, &str)] = &[
    ("ma,4", "0e0f"),
    ("qaisle.fault", "03,0000000000000010,77"),
    ("Qaisle.depth:02", "OK"),
    ("M11,1:ff", "OK"),
    ("m0,1", "04"),
    ("ma,4", "0e0f"),
    ("qaisle.fault", "03,0000000000000010,77"),
    ("M10,1:fe", "OK"),
    ("ma,4", "0e0ffeff"),
    ("m10,1", "E78"),
    ("qaisle.fault", "01,0000000000000010,78"),
];

// A spare copy, which is no walk: it goes on after a fault.
const SPARE: &[(&str, &str)] = &[
    ("m0,12", "000102030405060708090a0b0c0d0e0f"),
    ("qaisle.fault", "03,0000000000000018,77"),
    ("m10,1", "E77"),
    // the spare of 10 is 18
    ("Qaisle.depth:02", "OK"),
    ("M18,1:aa", "OK"),
    ("m10,1", "aa"),
    ("M10,1:bb", "OK"),
    ("m10,1", "bb"),
    // its spare is off the trail now
    ("M18,1:cc", "OK"),
    ("m10,1", "bb"),
    ("mf,3", "0fbb"),
    ("qaisle.fault", "03,0000000000000019,77"),
    // the last address has no spare
    ("mffffffffffffffff,1", "E77"),
    ("qaisle.fault", "03,ffffffffffffffff,77"),
    // at depth 0 the patch is above the spare
    ("Qaisle.depth:00", "OK"),
    ("M11,1:dd", "OK"),
    ("m10,3", "bbdd"),
];

// A bottom that nobody can patch, and a window on it.
const NOTHING_TO_PATCH: &[(&str, &str)] = &[
    ("m0,2", "02"),
    ("qaisle.fault", "01,0000000000000003,77"),
    ("m2,1", "E78"),
    ("qaisle.fault", "00,0000000000000002,78"),
    ("M0,1:00", "E26"),
    ("Qaisle.depth:01", "OK"),
    ("M2,1:00", "E26"),
    ("m0,1", "02"),
];

const EMPTY: &[(&str, &str)] = &[("m0,1", "E77"), ("qaisle.fault", "00,0000000000000000,77")];

#[test]
fn foreign_layers(rt: HostRuntime) {
    dialogue(&rt, windowed(), OFF_THE_TRAIL);
    dialogue(&rt, windowed(), BEHIND_A_FAULT);
    dialogue(&rt, spared(), SPARE);
    let window = Window {
        start: 2,
        length: 2,
        below: Ramp { length: 3 },
    };
    dialogue(&rt, window, NOTHING_TO_PATCH);
    dialogue(&rt, Ramp { length: 0 }, EMPTY);
}

const FIRST: &[(&str, &str)] = &[
    ("Qaisle.depth:01", "OK"),
    ("M1,1:ee", "OK"),
    ("m4,1", "E77"),
];

const SECOND: &[(&str, &str)] = &[
    ("qaisle.fault", "none"),
    ("M2,1:dd", "OK"),
    ("m0,4", "00eedd03"),
];

const THIRD: &[(&str, &str)] = &[
    ("Qaisle.depth:01", "OK"),
    ("M1,2:abcd", "OK"),
    ("m0,4", "00abdd03"),
];

// The pile that a session gives back is patched, and a session over it begins anew, at depth 0.
#[test]
fn one_session_after_another(rt: HostRuntime) {
    let space = dialogue(&rt, Overlay::new(counting(4)), FIRST);
    let space = dialogue(&rt, space, SECOND);
    dialogue(&rt, space, THIRD);
}
