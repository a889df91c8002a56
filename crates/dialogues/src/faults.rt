use crate::piles::{counting, windowed};
use crate::session::dialogue;

// The latest that a read met counts, after some bytes or none.
const LATEST: &[(&str, &str)] = &[
    ("qaisle.fault", "none"),
    ("m0,c", "0405060708090a0b0c0d0e0f"),
    ("qaisle.fault", "none"),
    ("ma,20", "0e0f"),
    ("qaisle.fault", "03,0000000000000010,77"),
    // asking for it takes nothing away
    ("qaisle.fault", "03,0000000000000010,77"),
    ("m10,1", "E78"),
    ("qaisle.fault", "01,0000000000000010,78"),
    ("me,8", "E77"),
    ("qaisle.fault", "03,0000000000000012,77"),
    ("mffffffffffffffff,1", "E78"),
    ("qaisle.fault", "01,ffffffffffffffff,78"),
    ("mb,2", "0f"),
    ("qaisle.fault", "03,0000000000000010,77"),
];

// One that was met stays until the next, whatever comes between.
const STAYS: &[(&str, &str)] = &[
    ("mb,3", "0f"),
    // a read that meets none
    ("m0,2", "0405"),
    ("qaisle.fault", "03,0000000000000010,77"),
    // refused ones
    ("m10,0", "E23"),
    ("mffffffffffffffff,2", "E25"),
    ("m10", "E22"),
    ("qaisle.fault", "03,0000000000000010,77"),
    // other commands
    ("?", "S05"),
    ("Hg0", "OK"),
    ("D", "OK"),
    ("Qaisle.depth:02", "OK"),
    ("M10,1:77", "OK"),
    ("Qaisle.depth:01", "OK"),
    ("M10,1:78", "E26"),
    ("vCont?", ""),
    ("qaisle.fault", "03,0000000000000010,77"),
    // a read of the very address, which has a byte now
    ("mc,1", "77"),
    ("qaisle.fault", "03,0000000000000010,77"),
    ("mc,2", "77"),
    ("qaisle.fault", "03,0000000000000011,77"),
];

// A byte behind the first without one is not told.
const BEHIND: &[(&str, &str)] = &[
    ("M5,1:05", "OK"),
    ("m2,4", "0203"),
    ("qaisle.fault", "01,0000000000000004,77"),
    ("m4,2", "E77"),
    ("m5,1", "05"),
    ("m5,2", "05"),
    ("qaisle.fault", "01,0000000000000006,77"),
];

#[test]
fn the_last_fault(rt: HostRuntime) {
    dialogue(&rt, windowed(), LATEST);
    dialogue(&rt, windowed(), STAYS);
    dialogue(&rt, counting(4), BEHIND);
}
