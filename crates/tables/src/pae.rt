use crate::boards::Change::{Clear, Set};
use crate::boards::{Break, KIB_4, MIB_2, Place, Tables, translate};
use paging::Pae;
use spaces::Space;
use std::test::Fail;

// Its index is 3 at level 3, 0xb at level 2 (0xb * 2 MiB = 0x160_0000) and 2 at level 1, and 0x345 is left.
const WAY: u64 = 0xc160_2345;

// Under root 0x1020 its entries are at 0x1020 + 8 * 3, 0x9_8765_4321_0000 + 8 * 0xb and 0xf_ffff_ffff_f000 + 8 * 2. The last
// address has index 3 and then 0x1ff twice, and 8 * 0x1ff is 0xff8; of those two entries the flags are bit 0 alone.
const ENTRIES: [(u64, u64); 5] = [
    (0x1038, 0x9_8765_4321_0003),
    (0x9_8765_4321_0058, 0xf_ffff_ffff_f003),
    (0xf_ffff_ffff_f010, 0xa_bcde_f012_3003),
    (0x9_8765_4321_0ff8, 0x9001),
    (0x9ff8, 0x7001),
];

const PLACES: [(u64, Place); 14] = [
    (0xc160_2000, Ok((0xa_bcde_f012_3000, KIB_4))),
    (WAY, Ok((0xa_bcde_f012_3345, KIB_4))),
    (0xc160_2fff, Ok((0xa_bcde_f012_3fff, KIB_4))),
    (0xffff_ffff, Ok((0x7fff, KIB_4))),
    // the entries beside those on the way, 8 bytes before and after, are not there
    (0xc160_1fff, Err((2, 0xf_ffff_ffff_f008, 0x77))),
    (0xc160_3000, Err((2, 0xf_ffff_ffff_f018, 0x77))),
    (0xc15f_ffff, Err((2, 0x9_8765_4321_0050, 0x77))),
    (0xc180_0000, Err((2, 0x9_8765_4321_0060, 0x77))),
    (0xbfff_ffff, Err((2, 0x1030, 0x77))),
    (0x4000_0000, Err((2, 0x1028, 0x77))),
    (0, Err((2, 0x1020, 0x77))),
    // from 2^32 on there are no addresses, whatever the lower half of one says
    (0x1_0000_0000, Err((0, 0x1_0000_0000, 0x04))),
    (0x1_c160_2345, Err((0, 0x1_c160_2345, 0x04))),
    (u64::MAX, Err((0, u64::MAX, 0x04))),
];

const LARGE: [(u64, u64); 5] = [
    // at level 3 bit 7 is no size, and bits 63:52 and 11:1 say nothing
    (0x1020, 0xfff0_0000_0000_2fff),
    (0x2000, 0x60_0083),
    // base 0xf_ffff_ffe0_0000
    (0x2008, u64::MAX),
    // bit 7 alone of the lower bits is clear, so it is the table at 0x3000; in its entry 4 bit 7 is no size
    (0x2010, 0xfff0_0000_0000_3f7f),
    (0x3020, 0xfff1_2345_6789_afff),
];

const LARGE_PLACES: [(u64, Place); 8] = [
    (0, Ok((0x60_0000, MIB_2))),
    (0x1234, Ok((0x60_1234, MIB_2))),
    (0x1f_ffff, Ok((0x7f_ffff, MIB_2))),
    (0x20_0000, Ok((0xf_ffff_ffe0_0000, MIB_2))),
    (0x23_4567, Ok((0xf_ffff_ffe3_4567, MIB_2))),
    (0x3f_ffff, Ok((0xf_ffff_ffff_ffff, MIB_2))),
    (0x40_4bcd, Ok((0x1_2345_6789_abcd, KIB_4))),
    (0x40_5000, Err((2, 0x3028, 0x77))),
];

// CR3, and where the entry of 0xc000_0000 then is.
const ROOTS: [(u64, u64); 6] = [
    (0x1000, 0x1018),
    (0x1020, 0x1038),
    (0x1fe0, 0x1ff8),
    (0x1fff, 0x1ff8),
    (0xffff_ffff_0000_103f, 0x1038),
    (0xffff_ffe0, 0xffff_fff8),
];

const ABSENT: &[u8] = b"\xfe\xff\xff\xff\xff\xff\xff\xff";

const BREAKS: [Break; 10] = [
    // every bit but bit 0, without which an entry is not present
    (&[Set(0x1038, ABSENT)], (0, WAY, 0x13)),
    (&[Set(0x9_8765_4321_0058, ABSENT)], (0, WAY, 0x12)),
    (&[Set(0xf_ffff_ffff_f010, ABSENT)], (0, WAY, 0x11)),
    // one byte of an entry is missing: its first, one in the middle, its last
    (&[Clear(0x1038, 1)], (2, 0x1038, 0x77)),
    (&[Clear(0x103c, 1)], (2, 0x103c, 0x77)),
    (
        &[Clear(0x9_8765_4321_005b, 1)],
        (2, 0x9_8765_4321_005b, 0x77),
    ),
    (
        &[Clear(0x9_8765_4321_005f, 1)],
        (2, 0x9_8765_4321_005f, 0x77),
    ),
    (
        &[Clear(0xf_ffff_ffff_f010, 1)],
        (2, 0xf_ffff_ffff_f010, 0x77),
    ),
    (
        &[Clear(0xf_ffff_ffff_f012, 1)],
        (2, 0xf_ffff_ffff_f012, 0x77),
    ),
    // an entry is read whole, the lowest byte first, before anything of it counts
    (&[Set(0x1038, b"\xfe"), Clear(0x103d, 3)], (2, 0x103d, 0x77)),
];

#[test]
fn pages_of_both_sizes_and_unread_bits(rt: HostRuntime) -> Result<(), Fail> {
    Tables::new(Pae, 0x1020, &ENTRIES).lead(&rt, &PLACES)?;
    // of CR3 bits 31:5 alone are read
    Tables::new(Pae, 0xffff_ffff_0000_103f, &LARGE).lead(&rt, &LARGE_PLACES)?;
    Ok(())
}

// The root is bits 31:5 of CR3 and no others, and the entry of 0xc000_0000 is 8 * 3 past it. That entry leads to the
// table at 0x2000, whose first entry is a page of 2 MiB.
#[test]
fn the_root_is_not_rounded_to_a_page(rt: HostRuntime) -> Result<(), Fail> {
    for (cr3, place) in ROOTS {
        let mut paging = Tables::new(
            Pae,
            cr3,
            &[(place, 0x2003_u64), (0x2000, 0x60_0083)],
        ).paging()?;
        translate(&rt, &paging, &[(0xc000_1234, Ok((0x60_1234, MIB_2)))]);
        // without the first byte of the entry
        paging.clear(1, place, 1)?;
        translate(&rt, &paging, &[(0xc000_0000, Err((2, place, 0x77)))]);
    }
    Ok(())
}

#[test]
fn entries_that_break_the_walk(rt: HostRuntime) -> Result<(), Fail> {
    Tables::new(Pae, 0x1020, &ENTRIES).breaks(&rt, WAY, &BREAKS)?;
    Ok(())
}
