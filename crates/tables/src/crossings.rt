use crate::boards::{Board, FaultParts, GIB_1, KIB_4, MIB_2, fill, laid, lay};
use outsiders::Ramp;
use overlays::Overlay;
use paging::{FourLevel, Paging};
use spaces::{EditRefusal, Space};
use std::test::Fail;

// Pages of each size whose second one lies before the first in memory: of 4 KiB from address 0 on, at 0x9000 and 0x8000; of
// 2 MiB from 2 MiB on, at 8 and 6 MiB; of 1 GiB from 1 GiB on, at 3 and 2 GiB. The third of 4 KiB is not present.
const TABLES: [(u64, u64); 10] = [
    (0x1000, 0x2003),
    (0x2000, 0x3003),
    (0x2008, 0xc000_0083),
    (0x2010, 0x8000_0083),
    (0x3000, 0x4003),
    (0x3008, 0x80_0083),
    (0x3010, 0x60_0083),
    (0x4000, 0x9003),
    (0x4008, 0x8003),
    (0x4010, 0x7002),
];

// Over the edge of each size.
const EDGES: [(u64, usize, Option<FaultParts>, [u8; 8]); 3] = [
    (KIB_4 - 3, 5, Some((2, 0x8002, 0x77)), *b"abcde..."),
    (2 * MIB_2 - 3, 5, Some((2, 0x60_0002, 0x77)), *b"abcde..."),
    (2 * GIB_1 - 3, 5, Some((2, 0x8000_0002, 0x77)), *b"abcde..."),
];

// A fault in the middle of a page ends the read, whatever lies behind it.
const MIDDLES: [(u64, usize, Option<FaultParts>, [u8; 8]); 4] = [
    (0xffc, 0, Some((2, 0x9ffc, 0x77)), *b"........"),
    (0xffe, 4, Some((2, 0x8002, 0x77)), *b"bcde...."),
    (0x1003, 1, Some((2, 0x8004, 0x77)), *b"g......."),
    (0x1ffe, 2, Some((0, 0x2000, 0x11)), *b"yz......"),
];

// Patches lie over the edge of two pages, over a byte that is absent, and where there is no page.
const PATCHED: [(u64, usize, Option<FaultParts>, [u8; 8]); 3] = [
    (0xffd, 6, Some((3, 0x8003, 0x77)), *b"aWXYeZ.."),
    (0x1ffe, 4, Some((1, 0x2002, 0x11)), *b"yzPQ...."),
    (0x1001, 2, Some((3, 0x8003, 0x77)), *b"eZ......"),
];

// Of each size the last three bytes of the first page and the first two of the second. Nothing else is there.
fn edges() -> Result<Paging<FourLevel, Board>, EditRefusal> {
    let mut board = laid(&TABLES)?;
    for (first, second) in [
        (0x9ffd, 0x8000),
        (0x9f_fffd, 0x60_0000),
        (0xffff_fffd, 0x8000_0000),
    ] {
        board.set(0, first, b"abc")?;
        board.set(0, second, b"de")?;
    }
    Ok(Paging::new(FourLevel, 0x1000, board))
}

#[test]
fn reads_cross_into_a_page_that_lies_before_their_own(rt: HostRuntime) -> Result<(), Fail> {
    let mut paging = edges()?;
    fill(&rt, &paging, &EDGES);
    for edge in [KIB_4, 2 * MIB_2, 2 * GIB_1] {
        let mut out = *b".....";
        assert_eq!(rt; paging.fill(edge - 2, &mut out[1..]), (4, None));
        assert_eq!(rt; out, *b".bcde");
    }
    paging.set(1, 0x8003, b"g")?;
    paging.set(1, 0x8ffe, b"yz")?;
    fill(&rt, &paging, &MIDDLES);
    let mut patched = Overlay::new(edges()?);
    patched.set(0, 0xffe, b"WXY")?;
    patched.set(0, 0x1002, b"Z")?;
    patched.set(2, 0x8ffe, b"yz")?;
    patched.set(0, 0x2000, b"PQ")?;
    fill(&rt, &patched, &PATCHED);
    Ok(())
}

// A read that begins in one page, has all of the next, and ends in a third. Here the third is present.
#[test]
fn a_read_has_a_whole_page(rt: HostRuntime) -> Result<(), Fail> {
    let mut board = Overlay::new(Ramp { length: 0xa000 });
    lay(&mut board, &TABLES)?;
    lay(&mut board, &[(0x4010, *b"\x03")])?;
    for (at, byte) in [
        (0x9fff, b"a"),
        (0x8000, b"b"),
        (0x8fff, b"c"),
        (0x7000, b"d"),
    ] {
        board.set(0, at, byte)?;
    }
    let paging = Paging::new(FourLevel, 0x1000, board);
    let mut out = [0; 0x1002];
    assert_eq!(rt; paging.fill(0xfff, &mut out), (0x1002, None));
    assert_eq!(rt; [out[0], out[1], out[0x1000], out[0x1001]], *b"abcd");
    for n in 1..0xfff_usize {
        assert_eq!(rt; out[n + 1], (n % 256) as u8);
    }
    Ok(())
}
