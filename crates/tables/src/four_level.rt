use crate::boards::Change::{Clear, Set};
use crate::boards::{
    Break, ENTRIES, FaultParts, GIB_1, KIB_4, MIB_2, Place, Tables, WAY, fill, show, translate,
};
use paging::FourLevel;
use spaces::Space;
use std::test::Fail;

const PLACES: [(u64, Place); 11] = [
    (0x80_8060_4000, Ok((0x9000, KIB_4))),
    (WAY, Ok((0x9567, KIB_4))),
    (0x80_8060_4fff, Ok((0x9fff, KIB_4))),
    // the entries beside those on the way, 8 bytes before and after, are not there
    (0x80_8060_3fff, Err((2, 0x4018, 0x77))),
    (0x80_8060_5000, Err((2, 0x4028, 0x77))),
    (0x80_805f_ffff, Err((2, 0x3010, 0x77))),
    (0x80_8080_0000, Err((2, 0x3020, 0x77))),
    (0x80_7fff_ffff, Err((2, 0x2008, 0x77))),
    (0x80_c000_0000, Err((2, 0x2018, 0x77))),
    (0x7f_ffff_ffff, Err((2, 0x1000, 0x77))),
    (0x100_0000_0000, Err((2, 0x1010, 0x77))),
];

const LARGE: [(u64, u64); 10] = [
    // at level 4 bit 7 is no size, and bits 63:52 and 11:1 say nothing
    (0x1000, 0xfff0_0000_0000_2fff),
    (0x2000, 0x3003),
    (0x3000, 0x60_00e3),
    // base 0xf_ffff_ffe0_0000
    (0x3008, u64::MAX),
    // bit 7 alone of the lower bits is clear, so it is the table at 0x4000; in its entry 5 bit 7 is no size
    (0x3010, 0xfff0_0000_0000_4f7f),
    (0x4028, 0xfffa_bcde_f012_3fff),
    (0x2008, 0x8000_0083),
    // base 0xf_ffff_c000_0000
    (0x2010, u64::MAX),
    // a table again, whose entry 1 is a page of 2 MiB
    (0x2018, 0xfff0_0000_0000_5f7f),
    (0x5008, 0x80_0081),
];

const LARGE_PLACES: [(u64, Place); 14] = [
    (0, Ok((0x60_0000, MIB_2))),
    (0x1234, Ok((0x60_1234, MIB_2))),
    (0x1f_ffff, Ok((0x7f_ffff, MIB_2))),
    (0x20_0000, Ok((0xf_ffff_ffe0_0000, MIB_2))),
    (0x3f_ffff, Ok((0xf_ffff_ffff_ffff, MIB_2))),
    (0x40_5678, Ok((0xa_bcde_f012_3678, KIB_4))),
    (0x4000_0000, Ok((0x8000_0000, GIB_1))),
    (0x7fff_ffff, Ok((0xbfff_ffff, GIB_1))),
    (0x8000_0000, Ok((0xf_ffff_c000_0000, GIB_1))),
    (0x9234_5678, Ok((0xf_ffff_d234_5678, GIB_1))),
    (0xbfff_ffff, Ok((0xf_ffff_ffff_ffff, GIB_1))),
    (0xc021_2345, Ok((0x81_2345, MIB_2))),
    (0xc000_0000, Err((2, 0x5000, 0x77))),
    // 2^32 is an address like any other
    (0x1_0000_0000, Err((2, 0x2020, 0x77))),
];

// Bits 63 to 47 of an address are equal, so the last of the lower half has indices 255, 511, 511 and 511, and the first
// of the upper half 256, 0, 0 and 0. 8 * 255, 8 * 256 and 8 * 511 are 0x7f8, 0x800 and 0xff8.
const HALVES: [(u64, u64); 10] = [
    // through tables near the top of what 52 bits can name
    (0xf_ffff_ffff_f7f8, 0xf_8000_0000_2003),
    (0xf_8000_0000_2ff8, 0xf_4000_0000_3003),
    (0xf_4000_0000_3ff8, 0xf_2000_0000_4003),
    (0xf_2000_0000_4ff8, 0xf_1000_0000_9003),
    // present, and no other flag
    (0xf_ffff_ffff_f800, 0x5001),
    (0x5000, 0x6001),
    (0x6000, 0x7001),
    (0x7000, 0xa001),
    // to a page of 1 GiB
    (0xf_ffff_ffff_fff8, 0x8003),
    (0x8ff8, 0x4000_0083),
];

const ENDS: [(u64, Place); 9] = [
    (0x7fff_ffff_ffff, Ok((0xf_1000_0000_9fff, KIB_4))),
    (0xffff_8000_0000_0000, Ok((0xa000, KIB_4))),
    (u64::MAX, Ok((0x7fff_ffff, GIB_1))),
    (0x8000_0000_0000, Err((0, 0x8000_0000_0000, 0x04))),
    (0xffff_7fff_ffff_ffff, Err((0, 0xffff_7fff_ffff_ffff, 0x04))),
    // bit 63, 48 or 47 alone is unlike the others
    (0x7fff_8000_0000_0000, Err((0, 0x7fff_8000_0000_0000, 0x04))),
    (0x8000_0000_0000_0000, Err((0, 0x8000_0000_0000_0000, 0x04))),
    (0x1_0000_0000_0000, Err((0, 0x1_0000_0000_0000, 0x04))),
    (0xffff_0000_0000_0000, Err((0, 0xffff_0000_0000_0000, 0x04))),
];

// The first entry of the root table leads to the root table, at each level and as the page at last. So does its last
// entry, and 0xffff_ffff_ffff_f000, whose indices are all 511, is the same page.
const OWN: [(u64, u64); 2] = [(0x1000, 0x1003), (0x1ff8, 0x1003)];

// Entry 1 is missing, at level 1 and as bytes of the page.
const OWN_PLACES: [(u64, Place); 3] = [
    (0, Ok((0x1000, KIB_4))),
    (u64::MAX, Ok((0x1fff, KIB_4))),
    (0x1000, Err((2, 0x1008, 0x77))),
];

const OWN_BYTES: [(u64, Result<u8, FaultParts>); 8] = [
    (0, Ok(0x03)),
    (1, Ok(0x10)),
    (7, Ok(0x00)),
    (8, Err((2, 0x1008, 0x77))),
    (0xff8, Ok(0x03)),
    (0xffff_ffff_ffff_f001, Ok(0x10)),
    (u64::MAX - 7, Ok(0x03)),
    (u64::MAX, Ok(0x00)),
];

const ABSENT: &[u8] = b"\xfe\xff\xff\xff\xff\xff\xff\xff";

const BREAKS: [Break; 13] = [
    // every bit but bit 0, without which an entry is not present
    (&[Set(0x1008, ABSENT)], (0, WAY, 0x14)),
    (&[Set(0x2010, ABSENT)], (0, WAY, 0x13)),
    (&[Set(0x3018, ABSENT)], (0, WAY, 0x12)),
    (&[Set(0x4020, ABSENT)], (0, WAY, 0x11)),
    // one byte of an entry is missing: its first, one in the middle, its last
    (&[Clear(0x1008, 1)], (2, 0x1008, 0x77)),
    (&[Clear(0x100c, 1)], (2, 0x100c, 0x77)),
    (&[Clear(0x2011, 1)], (2, 0x2011, 0x77)),
    (&[Clear(0x2017, 1)], (2, 0x2017, 0x77)),
    (&[Clear(0x301b, 1)], (2, 0x301b, 0x77)),
    (&[Clear(0x3018, 1)], (2, 0x3018, 0x77)),
    (&[Clear(0x4024, 1)], (2, 0x4024, 0x77)),
    (&[Clear(0x4027, 1)], (2, 0x4027, 0x77)),
    // an entry is read whole, the lowest byte first, before anything of it counts
    (
        &[Set(0x2010, b"\xfe"), Clear(0x2013, u64::MAX - 0x2013)],
        (2, 0x2013, 0x77),
    ),
];

#[test]
fn pages_of_each_size_and_unread_bits(rt: HostRuntime) -> Result<(), Fail> {
    Tables::new(FourLevel, 0x1000, &ENTRIES).lead(&rt, &PLACES)?;
    // of CR3 bits 51:12 alone are read
    Tables::new(FourLevel, 0xfff0_0000_0000_1fff, &LARGE).lead(&rt, &LARGE_PLACES)?;
    Ok(())
}

#[test]
fn addresses_have_a_lower_and_an_upper_half(rt: HostRuntime) -> Result<(), Fail> {
    let halves = Tables::new(FourLevel, 0xf_ffff_ffff_f000, &HALVES);
    halves.lead(&rt, &ENDS)?;
    // past the last address a fill has nothing to read, and there is no fault
    let mut paging = halves.paging()?;
    paging.set(1, 0x7fff_fffe, b"yz")?;
    fill(&rt, &paging, &[(u64::MAX - 1, 2, None, *b"yz......")]);
    Ok(())
}

#[test]
fn entries_that_break_the_walk(rt: HostRuntime) -> Result<(), Fail> {
    Tables::new(FourLevel, 0x1000, &ENTRIES).breaks(&rt, WAY, &BREAKS)?;
    Ok(())
}

#[test]
fn a_table_that_points_at_itself(rt: HostRuntime) -> Result<(), Fail> {
    let own = Tables::new(FourLevel, 0x1000, &OWN);
    own.lead(&rt, &OWN_PLACES)?;
    let mut paging = own.paging()?;
    show(&rt, &paging, &OWN_BYTES);
    // with bit 7 the entry is still a table at level 4, and at level 3 it is a page of 1 GiB whose base is 0
    paging.set(1, 0x1000, b"\x83")?;
    translate(&rt, &paging, &[(0, Ok((0, GIB_1)))]);
    show(&rt, &paging, &[(0, Err((2, 0, 0x77))), (0x1000, Ok(0x83))]);
    Ok(())
}
