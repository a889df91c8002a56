use crate::boards::Change::{Clear, Set};
use crate::boards::{Break, KIB_4, MIB_4, Place, Tables};
use paging::TwoLevel;
use std::test::Fail;

// Its index is 0x302 at level 2 (0x302 * 4 MiB = 0xc080_0000) and 1 at level 1, and 0x234 is left.
const WAY: u64 = 0xc080_1234;

// Under root 0x1000 its entries are at 0x1000 + 4 * 0x302 and 0xf000_5000 + 4 * 1. The last address has index 0x3ff at
// both levels, and 4 * 0x3ff is 0xffc; of its entries the flags are bit 0 alone.
const ENTRIES: [(u64, u32); 4] = [
    (0x1c08, 0xf000_5003),
    (0xf000_5004, 0x9abc_d003),
    (0x1ffc, 0x6001),
    (0x6ffc, 0xffff_f001),
];

const PLACES: [(u64, Place); 13] = [
    (0xc080_1000, Ok((0x9abc_d000, KIB_4))),
    (WAY, Ok((0x9abc_d234, KIB_4))),
    (0xc080_1fff, Ok((0x9abc_dfff, KIB_4))),
    (0xffff_f000, Ok((0xffff_f000, KIB_4))),
    (0xffff_ffff, Ok((0xffff_ffff, KIB_4))),
    // the entries beside those on the way, 4 bytes before and after, are not there
    (0xc080_0fff, Err((2, 0xf000_5000, 0x77))),
    (0xc080_2000, Err((2, 0xf000_5008, 0x77))),
    (0xc07f_ffff, Err((2, 0x1c04, 0x77))),
    (0xc0c0_0000, Err((2, 0x1c0c, 0x77))),
    (0, Err((2, 0x1000, 0x77))),
    // from 2^32 on there are no addresses, whatever the lower half of one says
    (0x1_0000_0000, Err((0, 0x1_0000_0000, 0x04))),
    (0x1_c080_1234, Err((0, 0x1_c080_1234, 0x04))),
    (u64::MAX, Err((0, u64::MAX, 0x04))),
];

const LARGE: [(u64, u32); 4] = [
    (0x1004, 0x40_0083),
    // base 0xffc0_0000
    (0x1008, u32::MAX),
    // bit 7 alone of the lower bits is clear, so it is the table at 0x2000; in its entry 5 bit 7 is no size
    (0x100c, 0x2f7f),
    (0x2014, 0x7654_3fff),
];

const LARGE_PLACES: [(u64, Place); 8] = [
    (0x40_0000, Ok((0x40_0000, MIB_4))),
    (0x40_0010, Ok((0x40_0010, MIB_4))),
    (0x7f_ffff, Ok((0x7f_ffff, MIB_4))),
    (0x80_0000, Ok((0xffc0_0000, MIB_4))),
    (0x9a_bcde, Ok((0xffda_bcde, MIB_4))),
    (0xbf_ffff, Ok((0xffff_ffff, MIB_4))),
    (0xc0_5abc, Ok((0x7654_3abc, KIB_4))),
    (0xc0_6000, Err((2, 0x2018, 0x77))),
];

const ABSENT: &[u8] = b"\xfe\xff\xff\xff";

const BREAKS: [Break; 9] = [
    // every bit but bit 0, without which an entry is not present
    (&[Set(0x1c08, ABSENT)], (0, WAY, 0x12)),
    (&[Set(0xf000_5004, ABSENT)], (0, WAY, 0x11)),
    // one byte of an entry is missing: its first, one in the middle, its last
    (&[Clear(0x1c08, 1)], (2, 0x1c08, 0x77)),
    (&[Clear(0x1c0a, 1)], (2, 0x1c0a, 0x77)),
    (&[Clear(0x1c0b, 1)], (2, 0x1c0b, 0x77)),
    (&[Clear(0xf000_5004, 1)], (2, 0xf000_5004, 0x77)),
    (&[Clear(0xf000_5005, 1)], (2, 0xf000_5005, 0x77)),
    (&[Clear(0xf000_5007, 1)], (2, 0xf000_5007, 0x77)),
    // an entry is read whole, the lowest byte first, before anything of it counts
    (
        &[Set(0xf000_5004, b"\xfe"), Clear(0xf000_5005, 2)],
        (2, 0xf000_5005, 0x77),
    ),
];

#[test]
fn pages_of_both_sizes_and_unread_bits(rt: HostRuntime) -> Result<(), Fail> {
    Tables::new(TwoLevel, 0x1000, &ENTRIES).lead(&rt, &PLACES)?;
    // of CR3 bits 31:12 alone are read
    Tables::new(TwoLevel, 0xffff_ffff_0000_1fff, &LARGE).lead(&rt, &LARGE_PLACES)?;
    let last = [(0xffff_f004, 0x40_0083_u32)];
    Tables::new(TwoLevel, u64::MAX, &last).lead(&rt, &[(0x40_0010, Ok((0x40_0010, MIB_4)))])?;
    Ok(())
}

#[test]
fn entries_that_break_the_walk(rt: HostRuntime) -> Result<(), Fail> {
    Tables::new(TwoLevel, 0x1000, &ENTRIES).breaks(&rt, WAY, &BREAKS)?;
    Ok(())
}
