use crate::boards::{FaultParts, Tables, fill, show};
use paging::TwoLevel;
use spaces::Space;
use std::test::Fail;

// Page 0 is at 0x9000 and page 1 before it at 0x8000; page 2 is not present, and its entry is the table's last.
// The last 4 MiB are at 0xc0_0000, so the last address goes to 0xff_ffff.
const TWO_PAGES: [(u64, u32); 5] = [
    (0x1000, 0x2003),
    (0x2000, 0x9003),
    (0x2004, 0x8003),
    (0x2008, 0xa002),
    (0x1ffc, 0xc0_0083),
];

const BYTES: [(u64, Result<u8, FaultParts>); 9] = [
    (0xfff, Ok(b'c')),
    (0x1000, Ok(b'd')),
    (0xffff_ffff, Ok(b'!')),
    // these have a final address, and no byte there
    (0xffc, Err((2, 0x9ffc, 0x77))),
    (0x1002, Err((2, 0x8002, 0x77))),
    (0xffff_fffe, Err((2, 0xff_fffe, 0x77))),
    // these have none
    (0x2000, Err((0, 0x2000, 0x11))),
    (0x3abc, Err((2, 0x200c, 0x77))),
    (0x1_0000_0000, Err((0, 0x1_0000_0000, 0x04))),
];

// Over the edge of a page the next one goes on, and what a fault leaves of the buffer is as it was.
const FILLS: [(u64, usize, Option<FaultParts>, [u8; 8]); 4] = [
    (0xffd, 5, Some((2, 0x8002, 0x77)), *b"abcde..."),
    (0x1ffe, 2, Some((0, 0x2000, 0x11)), *b"yz......"),
    (0x2000, 0, Some((0, 0x2000, 0x11)), *b"........"),
    (0xffff_ffff, 1, Some((0, 0x1_0000_0000, 0x04)), *b"!......."),
];

#[test]
fn bytes_are_those_at_the_final_addresses(rt: HostRuntime) -> Result<(), Fail> {
    let tables = Tables::new(TwoLevel, 0x1000, &TWO_PAGES);
    let mut paging = tables.paging()?;
    paging.set(1, 0x9ffd, b"abc")?;
    paging.set(1, 0x8000, b"de")?;
    paging.set(1, 0x8ffe, b"yz")?;
    paging.set(1, 0xff_ffff, b"!")?;
    show(&rt, &paging, &BYTES);
    fill(&rt, &paging, &FILLS);
    Ok(())
}
