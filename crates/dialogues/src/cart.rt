use crate::session::dialogue;
use carts::{RANGES, load_cart};
use images::LimeRange;
use std::test::Fail;

// The dump of the sample cart: a page table of each level, and the four bytes to which they lead. Each range has its magic,
// version, first and last address, eight zeros, and its bytes.
const DUMP: [u8; 204] = *b"\
    EMiL\x01\0\0\0\0\x10\0\0\0\0\0\0\x07\x10\0\0\0\0\0\0\0\0\0\0\0\0\0\0\
    \x03\x20\0\0\0\0\0\0\
    EMiL\x01\0\0\0\0\x20\0\0\0\0\0\0\x07\x20\0\0\0\0\0\0\0\0\0\0\0\0\0\0\
    \x03\x30\0\0\0\0\0\0\
    EMiL\x01\0\0\0\0\x30\0\0\0\0\0\0\x07\x30\0\0\0\0\0\0\0\0\0\0\0\0\0\0\
    \x03\x40\0\0\0\0\0\0\
    EMiL\x01\0\0\0\0\x40\0\0\0\0\0\0\x0f\x40\0\0\0\0\0\0\0\0\0\0\0\0\0\0\
    \x03\x50\0\0\0\0\0\0\0\0\0\0\0\0\0\0\
    EMiL\x01\0\0\0\xfc\x5f\0\0\0\0\0\0\xff\x5f\0\0\0\0\0\0\0\0\0\0\0\0\0\0\
    \x41\x42\x43\x44";

// The whole story of the sample cart.
const STORY: &[(&str, &str)] = &[
    ("qaisle.fault", "none"),
    // the page ends
    ("mffc,8", "41424344"),
    ("qaisle.fault", "01,0000000000001000,11"),
    ("mffc,4", "41424344"),
    ("qaisle.fault", "01,0000000000001000,11"),
    // of the page's memory the dump has the end alone
    ("m0,4", "E01"),
    ("qaisle.fault", "03,0000000000005000,01"),
    // and of the table of level 2 the first entry alone
    ("m200000,1", "E01"),
    ("qaisle.fault", "03,0000000000003008,01"),
    ("m800000000000,1", "E04"),
    ("qaisle.fault", "01,0000800000000000,04"),
    // the next page is there once its entry is patched in
    ("m1ffc,4", "E11"),
    ("Qaisle.depth:02", "OK"),
    ("M4008,2:0350", "OK"),
    ("m1ffc,4", "41424344"),
    ("qaisle.fault", "01,0000000000001ffc,11"),
];

#[test]
fn the_sample_cart(rt: HostRuntime) -> Result<(), Fail> {
    let mut memory = [LimeRange::default(); RANGES];
    dialogue(&rt, load_cart(&DUMP, b"\x00\x10", &mut memory)?, STORY);
    Ok(())
}
