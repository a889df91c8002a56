use crate::boards::{ENTRIES, Entry, KIB_4, Place, Tables, WAY, goes};
use paging::{FourLevel, Pae, Scheme, TwoLevel};
use spaces::EditRefusal;
use std::process::Abort;
use std::test::Fail;

// Systems lead an entry of the root table back to the root itself, and then find the entries of an address at well-known
// addresses. Each pair here is such an address and where the entry stands.
fn find<P: Scheme + Copy, E: Entry>(
    rt: &impl Abort,
    tables: Tables<'_, P, E>,
    places: &[(u64, u64)],
) -> Result<(), EditRefusal> {
    let paging = tables.paging()?;
    for (at, place) in places {
        assert_eq!(rt; paging.translate(*at), goes(Ok((*place, KIB_4))));
    }
    Ok(())
}

// The own entry of the root at 0x1000, and where a system has the entries of levels 1, 2, 3 and 4 of the way, which are at
// its page tables + 8 * (a >> 12), its directories + 8 * (a >> 21), + 8 * (a >> 30), + 8 * (a >> 39), and the own entry.
const FOUR_LEVELS: [(u64, [u64; 5]); 3] = [
    // entry 511: page tables from 0xffff_ff80_0000_0000 on
    (
        0x1ff8,
        [
            0xffff_ff80_4040_3020,
            0xffff_ffff_c020_2018,
            0xffff_ffff_ffe0_1010,
            0xffff_ffff_ffff_f008,
            0xffff_ffff_ffff_fff8,
        ],
    ),
    // entry 510: page tables from 0xffff_ff00_0000_0000 on
    (
        0x1ff0,
        [
            0xffff_ff00_4040_3020,
            0xffff_ff7f_8020_2018,
            0xffff_ff7f_bfc0_1010,
            0xffff_ff7f_bfdf_e008,
            0xffff_ff7f_bfdf_eff0,
        ],
    ),
    // entry 0x1ed: Windows' PTE_BASE 0xffff_f680_0000_0000, PDE_BASE 0xffff_f6fb_4000_0000, PPE_BASE
    // 0xffff_f6fb_7da0_0000 and PXE_BASE 0xffff_f6fb_7dbe_d000, whose PXE_SELFMAP is the last
    (
        0x1f68,
        [
            0xffff_f680_4040_3020,
            0xffff_f6fb_4020_2018,
            0xffff_f6fb_7da0_1010,
            0xffff_f6fb_7dbe_d008,
            0xffff_f6fb_7dbe_df68,
        ],
    ),
];

// By way of itself the root is a table of a lower level, so an entry that is not present counts as one of that level.
const ABSENT: [(u64, u64); 2] = [(0x1000, 0), (0x1ff8, 0x1003)];

const ABSENT_PLACES: [(u64, Place); 5] = [
    (0, Err((0, 0, 0x14))),
    (0xffff_ff80_0000_0000, Err((0, 0xffff_ff80_0000_0000, 0x13))),
    (0xffff_ffff_c000_0000, Err((0, 0xffff_ffff_c000_0000, 0x12))),
    (0xffff_ffff_ffe0_0000, Err((0, 0xffff_ffff_ffe0_0000, 0x11))),
    (0xffff_ffff_ffff_f000, Ok((0x1000, KIB_4))),
];

// Address 0x1234_5678 has index 0x48 at level 2 and 0x345 at level 1. Its entries are at the page tables + 4 * 0x1_2345 and
// at the root + 4 * 0x48.
const TWO_LEVELS: [(u64, [u64; 3]); 2] = [
    // entry 1,023: page tables from 0xffc0_0000 on, the root at 0xffff_f000
    (0x1ffc, [0xffc4_8d14, 0xffff_f120, 0xffff_fffc]),
    // entry 0x300, as Windows has it: 0xc000_0000 and 0xc030_0000
    (0x1c00, [0xc004_8d14, 0xc030_0120, 0xc030_0c00]),
];

// The root of PAE has no room for an own entry. Windows led the first four entries of the last directory to the four
// directories: page tables from 0xc000_0000 on, directories from 0xc060_0000 on, with 8 bytes for each 4 KiB and each 2 MiB.
const DIRECTORIES: [(u64, u64); 12] = [
    // the root
    (0x1020, 0x2001),
    (0x1028, 0x3001),
    (0x1030, 0x4001),
    (0x1038, 0x5001),
    // the last directory
    (0x5000, 0x2003),
    (0x5008, 0x3003),
    (0x5010, 0x4003),
    (0x5018, 0x5003),
    // 0x1234_5678 has indices 0, 0x91 and 0x145, and 0x8765_4321 has 2, 0x3b and 0x54
    (0x2488, 0x6003),
    (0x6a28, 0x9003),
    (0x41d8, 0x7003),
    (0x72a0, 0xa003),
];

const DIRECTORY_PLACES: [(u64, u64); 8] = [
    (0x1234_5678, 0x9678),
    (0xc009_1a28, 0x6a28),
    (0xc060_0488, 0x2488),
    (0x8765_4321, 0xa321),
    (0xc043_b2a0, 0x72a0),
    (0xc060_21d8, 0x41d8),
    // the last directory's own entries
    (0xc060_3000, 0x5000),
    (0xc060_3018, 0x5018),
];

#[test]
fn a_root_of_four_levels_in_itself(rt: HostRuntime) -> Result<(), Fail> {
    let [first, second, third, fourth] = ENTRIES;
    for (own, [page_table, directory, pointers, root, itself]) in FOUR_LEVELS {
        let entries = [first, second, third, fourth, (own, 0x1003)];
        let places = [
            (page_table, 0x4020),
            (directory, 0x3018),
            (pointers, 0x2010),
            (root, 0x1008),
            (itself, own),
            (WAY, 0x9567),
        ];
        find(&rt, Tables::new(FourLevel, 0x1000, &entries), &places)?;
    }
    Tables::new(FourLevel, 0x1000, &ABSENT).lead(&rt, &ABSENT_PLACES)?;
    Ok(())
}

#[test]
fn a_root_of_two_levels_in_itself(rt: HostRuntime) -> Result<(), Fail> {
    for (own, [page_table, root, itself]) in TWO_LEVELS {
        let entries = [(0x1120, 0x2003_u32), (0x2d14, 0x9003), (own, 0x1003)];
        let places = [
            (page_table, 0x2d14),
            (root, 0x1120),
            (itself, own),
            (0x1234_5678, 0x9678),
        ];
        find(&rt, Tables::new(TwoLevel, 0x1000, &entries), &places)?;
    }
    Ok(())
}

#[test]
fn directories_of_pae_in_the_last(rt: HostRuntime) -> Result<(), Fail> {
    find(
        &rt,
        Tables::new(Pae, 0x1020, &DIRECTORIES),
        &DIRECTORY_PLACES,
    )?;
    Ok(())
}
