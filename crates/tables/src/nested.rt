use crate::boards::Change::{Clear, Set};
use crate::boards::{Board, Entry, KIB_4, Step, WAY, follow, laid, lay, show, translate};
use overlays::Overlay;
use paging::{FourLevel, Pae, Paging, Scheme, TwoLevel};
use spaces::EditRefusal::NoOverlay;
use spaces::{EditRefusal, Space};
use std::test::Fail;

// From the top: the guest's paging at depth 0, an overlay, the host's paging at 2, and the board, an overlay at 3 over
// a ramp without bytes at 4.
type Guest<P> = Paging<P, Overlay<Paging<FourLevel, Board>>>;

// The host's tables from 0x1000 on: the guest's page 1 is at 0xa000, page 2 at 0x9000, and so on down to 5 at 0x6000.
const HOST: [(u64, u64); 8] = [
    (0x1000, 0x2003),
    (0x2000, 0x3003),
    (0x3000, 0x4003),
    (0x4008, 0xa003),
    (0x4010, 0x9003),
    (0x4018, 0x8003),
    (0x4020, 0x7003),
    (0x4028, 0x6003),
];

// A guest whose tables are its pages 1 to 4: the way's entries are at its addresses 0x1008, 0x2010, 0x3018 and 0x4020,
// which the host has at 0xa008, 0x9010, 0x8018 and 0x7020. They lead to the guest's 0x5567, which is the host's 0x6567.
const FOUR_LEVELS: [(u64, u64); 4] = [
    (0xa008, 0x2003),
    (0x9010, 0x3003),
    (0x8018, 0x4003),
    (0x7020, 0x5003),
];

const STEPS: [Step; 11] = [
    (0, Set(0x5567, b"z"), Err(NoOverlay), Ok(b'x')),
    (0, Clear(0x5567, 1), Err(NoOverlay), Ok(b'x')),
    (2, Set(0x5567, b"z"), Err(NoOverlay), Ok(b'x')),
    (2, Clear(0x5567, 1), Err(NoOverlay), Ok(b'x')),
    (4, Set(0x5567, b"z"), Err(NoOverlay), Ok(b'x')),
    (4, Clear(0x5567, 1), Err(NoOverlay), Ok(b'x')),
    // the board has the host's addresses, and the overlay between the guest's
    (3, Set(0x6567, b"h"), Ok(()), Ok(b'h')),
    (1, Set(0x5567, b"g"), Ok(()), Ok(b'g')),
    // the guest's last entry becomes 0x6003; its page 6 has no entry in the host's table, and a patch needs none
    (1, Set(0x4021, b"\x60"), Ok(()), Err((4, 0x4030, 0x77))),
    (1, Set(0x6567, b"o"), Ok(()), Ok(b'o')),
    // that entry becomes 0xf_0000_0000_6003, and what it leads to is no address of the host's paging
    (
        1,
        Set(0x4026, b"\x0f"),
        Ok(()),
        Err((2, 0xf_0000_0000_6567, 0x04)),
    ),
];

const BREAKS: [Step; 25] = [
    // an entry that is not present, of the host and then of the guest
    (3, Set(0x1000, b"\xfe"), Ok(()), Err((2, 0x1008, 0x14))),
    (3, Set(0x2000, b"\xfe"), Ok(()), Err((2, 0x1008, 0x13))),
    (3, Set(0x3000, b"\xfe"), Ok(()), Err((2, 0x1008, 0x12))),
    (3, Set(0x4008, b"\xfe"), Ok(()), Err((2, 0x1008, 0x11))),
    (3, Set(0x4010, b"\xfe"), Ok(()), Err((2, 0x2010, 0x11))),
    (3, Set(0x4018, b"\xfe"), Ok(()), Err((2, 0x3018, 0x11))),
    (3, Set(0x4020, b"\xfe"), Ok(()), Err((2, 0x4020, 0x11))),
    (3, Set(0x4028, b"\xfe"), Ok(()), Err((2, 0x5567, 0x11))),
    (3, Set(0xa008, b"\xfe"), Ok(()), Err((0, WAY, 0x14))),
    (3, Set(0x9010, b"\xfe"), Ok(()), Err((0, WAY, 0x13))),
    (3, Set(0x8018, b"\xfe"), Ok(()), Err((0, WAY, 0x12))),
    (3, Set(0x7020, b"\xfe"), Ok(()), Err((0, WAY, 0x11))),
    // a missing byte: of the host's entries, of the guest's entries, and the final one
    (3, Clear(0x1003, 1), Ok(()), Err((4, 0x1003, 0x77))),
    (3, Clear(0x2001, 1), Ok(()), Err((4, 0x2001, 0x77))),
    (3, Clear(0x3007, 1), Ok(()), Err((4, 0x3007, 0x77))),
    (3, Clear(0x400a, 1), Ok(()), Err((4, 0x400a, 0x77))),
    (3, Clear(0x4010, 1), Ok(()), Err((4, 0x4010, 0x77))),
    (3, Clear(0x401b, 1), Ok(()), Err((4, 0x401b, 0x77))),
    (3, Clear(0x4024, 1), Ok(()), Err((4, 0x4024, 0x77))),
    (3, Clear(0x402f, 1), Ok(()), Err((4, 0x402f, 0x77))),
    (3, Clear(0xa00c, 1), Ok(()), Err((4, 0xa00c, 0x77))),
    (3, Clear(0x9010, 1), Ok(()), Err((4, 0x9010, 0x77))),
    (3, Clear(0x801f, 1), Ok(()), Err((4, 0x801f, 0x77))),
    (3, Clear(0x7021, 1), Ok(()), Err((4, 0x7021, 0x77))),
    (3, Clear(0x6567, 1), Ok(()), Err((4, 0x6567, 0x77))),
];

// The host's last entry of a guest's way is not present, and then a byte of the guest's tables is missing.
const PAE_STEPS: [Step; 2] = [
    (3, Set(0x4010, b"\x02"), Ok(()), Err((2, 0x2018, 0x11))),
    (3, Clear(0xa03b, 1), Ok(()), Err((4, 0xa03b, 0x77))),
];

const TWO_LEVEL_STEPS: [Step; 2] = [
    (3, Set(0x4028, b"\x02"), Ok(()), Err((2, 0x5678, 0x11))),
    (3, Clear(0x9016, 1), Ok(()), Err((4, 0x9016, 0x77))),
];

// A guest by CR3, with its entries and one byte, all at the host's addresses.
fn guest<P: Scheme + Drop, E: Entry>(
    scheme: P,
    cr3: u64,
    entries: &[(u64, E)],
    place: u64,
    byte: u8,
) -> Result<Guest<P>, EditRefusal> {
    let mut board = laid(&HOST)?;
    lay(&mut board, entries)?;
    board.set(0, place, &[byte])?;
    let below = Paging::new(FourLevel, 0x1000, board);
    Ok(Paging::new(scheme, cr3, Overlay::new(below)))
}

fn four_on_four() -> Result<Guest<FourLevel>, EditRefusal> {
    guest(FourLevel, 0x1000, &FOUR_LEVELS, 0x6567, b'x')
}

#[test]
fn a_guest_on_a_host(rt: HostRuntime) -> Result<(), Fail> {
    let mut space = four_on_four()?;
    translate(&rt, &space, &[(WAY, Ok((0x5567, KIB_4)))]);
    let hole = Err((0, 0x8000_0000_0000, 0x04));
    show(&rt, &space, &[(WAY, Ok(b'x')), (0x8000_0000_0000, hole)]);
    follow(&rt, &mut space, WAY, &STEPS);
    translate(&rt, &space, &[(WAY, Ok((0xf_0000_0000_6567, KIB_4)))]);
    Ok(())
}

#[test]
fn a_host_or_a_guest_breaks_the_walk(rt: HostRuntime) -> Result<(), Fail> {
    for step in BREAKS {
        follow(&rt, &mut four_on_four()?, WAY, &[step]);
    }
    Ok(())
}

#[test]
fn narrower_guests(rt: HostRuntime) -> Result<(), Fail> {
    // the sum of 3 << 30, 3 << 21, 4 << 12 and 0x567: under root 0x1020 the entries are at 0x1020 + 8 * 3,
    // 0x2000 + 8 * 3 and 0x3000 + 8 * 4, which the host has at 0xa038, 0x9018 and 0x8020, and 0x4567 is its 0x7567
    let at = 0xc060_4567;
    let entries = [(0xa038, 0x2003_u64), (0x9018, 0x3003), (0x8020, 0x4003)];
    let mut space = guest(Pae, 0x1020, &entries, 0x7567, b'p')?;
    translate(&rt, &space, &[(at, Ok((0x4567, KIB_4)))]);
    show(&rt, &space, &[(at, Ok(b'p'))]);
    follow(&rt, &mut space, at, &PAE_STEPS);
    // the sum of 3 << 22, 5 << 12 and 0x678: under root 0x1000 the entries are at 0x1000 + 4 * 3 and 0x2000 + 4 * 5,
    // which the host has at 0xa00c and 0x9014, and 0x5678 is its 0x6678
    let at = 0xc0_5678;
    let entries = [(0xa00c, 0x2003_u32), (0x9014, 0x5003)];
    let mut space = guest(TwoLevel, 0x1000, &entries, 0x6678, b't')?;
    translate(&rt, &space, &[(at, Ok((0x5678, KIB_4)))]);
    show(&rt, &space, &[(at, Ok(b't'))]);
    follow(&rt, &mut space, at, &TWO_LEVEL_STEPS);
    Ok(())
}
