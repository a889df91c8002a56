use crate::boards::Change::{Clear, Set};
use crate::boards::{
    Board, ENTRIES, FaultParts, KIB_4, Step, Tables, WAY, fault, follow, translate,
};
use paging::{FourLevel, Paging};
use spaces::EditRefusal::{NoOverlay, PastTheEnd};
use spaces::{EditRefusal, Space, Watched};
use std::test::Fail;

// A byte that is patched right below, and what is then read at the way.
const PATCHES: [(u64, u8, Result<u8, FaultParts>); 14] = [
    // beside the way: the bytes before and after an entry and the final byte
    (0x1007, 0xff, Ok(b'x')),
    (0x1010, 0xff, Ok(b'x')),
    (0x9566, 0xff, Ok(b'x')),
    (0x9568, 0xff, Ok(b'x')),
    // on the way, in bits 63:56, which are not read
    (0x4027, 0xff, Ok(b'x')),
    // the entry 0x9003 becomes 0xa003, and the byte at 0x9567 is no longer on the way
    (0x4021, 0xa0, Ok(b'y')),
    (0x9567, 0xff, Ok(b'y')),
    (0xa567, b'z', Ok(b'z')),
    // bit 0 of the entries at level 1 and at level 4
    (0x4020, 0x02, Err((0, WAY, 0x11))),
    (0x1008, 0x02, Err((0, WAY, 0x14))),
    (0x1008, 0x03, Err((0, WAY, 0x11))),
    (0x4020, 0x03, Ok(b'z')),
    // bit 7 at level 2: a page of 2 MiB whose base is 0, so bits 20:0 of the way, 0x4567, are the final address
    (0x3018, 0x83, Err((2, 0x4567, 0x77))),
    (0x4567, b'w', Ok(b'w')),
];

// The way leads to the page at 0x9000, which has an `x` at 0x567; the page at 0xa000 has a `y` there.
fn paging() -> Result<Paging<FourLevel, Board>, EditRefusal> {
    let tables = Tables::new(FourLevel, 0x1000, &ENTRIES);
    let mut paging = tables.paging()?;
    paging.set(1, 0x9567, b"x")?;
    paging.set(1, 0xa567, b"y")?;
    Ok(paging)
}

const STEPS: [Step; 17] = [
    (0, Set(WAY, b"z"), Err(NoOverlay), Ok(b'x')),
    (0, Set(0x9567, b"z"), Err(NoOverlay), Ok(b'x')),
    (0, Clear(0x9567, 1), Err(NoOverlay), Ok(b'x')),
    (0, Clear(1, u64::MAX), Err(NoOverlay), Ok(b'x')),
    (2, Set(WAY, b"z"), Err(NoOverlay), Ok(b'x')),
    (2, Set(0x9567, b"z"), Err(NoOverlay), Ok(b'x')),
    (2, Clear(0x9567, 1), Err(NoOverlay), Ok(b'x')),
    (2, Clear(1, u64::MAX), Err(NoOverlay), Ok(b'x')),
    (0, Set(u64::MAX, b"zz"), Err(PastTheEnd), Ok(b'x')),
    (0, Clear(2, u64::MAX), Err(PastTheEnd), Ok(b'x')),
    (1, Set(u64::MAX, b"zz"), Err(PastTheEnd), Ok(b'x')),
    (1, Clear(2, u64::MAX), Err(PastTheEnd), Ok(b'x')),
    (2, Set(u64::MAX, b"zz"), Err(PastTheEnd), Ok(b'x')),
    (2, Clear(2, u64::MAX), Err(PastTheEnd), Ok(b'x')),
    // at depth 1 an address is one below, so it is not led through the tables
    (1, Set(WAY, b"z"), Ok(()), Ok(b'x')),
    (1, Set(0x9567, b"z"), Ok(()), Ok(b'z')),
    (1, Clear(0x9567, 1), Ok(()), Err((2, 0x9567, 0x77))),
];

const CLEARED: [Step; 1] = [(1, Clear(0x3018, 0x1010), Ok(()), Err((2, 0x3018, 0x77)))];

#[test]
fn edits_are_made_below(rt: HostRuntime) -> Result<(), Fail> {
    let mut paging = paging()?;
    follow(&rt, &mut paging, WAY, &STEPS);
    translate(&rt, &paging, &[(WAY, Ok((0x9567, KIB_4)))]);
    follow(&rt, &mut paging, WAY, &CLEARED);
    translate(&rt, &paging, &[(WAY, Err((2, 0x3018, 0x77)))]);
    Ok(())
}

#[test]
fn a_patch_on_the_way_shows(rt: HostRuntime) -> Result<(), Fail> {
    let mut paging = paging()?;
    let mut before = Ok(b'x');
    for (first, value, after) in PATCHES {
        let after = after.map_err(fault);
        let expected = Watched {
            before,
            outcome: Ok(()),
            after,
        };
        assert_eq!(rt; paging.patch_below(first, &[value], WAY), expected);
        before = after;
    }
    let refused = Watched {
        before,
        outcome: Err(PastTheEnd),
        after: before,
    };
    assert_eq!(rt; paging.patch_below(u64::MAX, b"!!", WAY), refused);
    Ok(())
}
