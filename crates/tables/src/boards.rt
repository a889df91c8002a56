use outsiders::Ramp;
use overlays::Overlay;
use paging::{Paging, Scheme, Translation};
use spaces::{EditRefusal, Fault, Space};
use std::process::Abort;

// Memory that has the bytes laid on it and no others. Any other is absent with cause 0x77, two below a paging.
pub(crate) type Board = Overlay<Ramp>;

pub(crate) const KIB_4: u64 = 0x1000;

pub(crate) const MIB_2: u64 = 0x20_0000;

pub(crate) const MIB_4: u64 = 0x40_0000;

pub(crate) const GIB_1: u64 = 0x4000_0000;

// The sum of 1 << 39, 2 << 30, 3 << 21, 4 << 12 and 0x567: its indices are 1, 2, 3 and 4 from level 4 down.
pub(crate) const WAY: u64 = 0x80_8060_4567;

// Its entries under root 0x1000, at 0x1000 + 8 * 1, 0x2000 + 8 * 2, 0x3000 + 8 * 3 and 0x4000 + 8 * 4. They lead to the
// page at 0x9000.
pub(crate) const ENTRIES: [(u64, u64); 4] = [
    (0x1008, 0x2003),
    (0x2010, 0x3003),
    (0x3018, 0x4003),
    (0x4020, 0x9003),
];

// A fault's depth, address and cause: a constant may not call `fault`, so cases have the three parts.
pub(crate) type FaultParts = (u8, u64, u8);

// A final address and the size of its page, or what is missing on the way.
pub(crate) type Place = Result<(u64, u64), FaultParts>;

// An edit: the first address, and the bytes or how many addresses.
#[derive(Clone, Copy)]
pub(crate) enum Change {
    Set(u64, &'static [u8]),
    Clear(u64, u64),
}

impl Change {
    fn make<S: Space>(self, space: &mut S, depth: u8) -> Result<(), EditRefusal> {
        match self {
            Change::Set(first, bytes) => space.set(depth, first, bytes),
            Change::Clear(first, count) => space.clear(depth, first, count),
        }
    }
}

// Edits of a board, and what is then missing on a way.
pub(crate) type Break = (&'static [Change], FaultParts);

// An edit at a depth, what it answers, and what an address then has.
pub(crate) type Step = (u8, Change, Result<(), EditRefusal>, Result<u8, FaultParts>);

// Each crate of tests has such a function of its own, as short as its tests want it.
pub(crate) fn fault((depth, address, cause): FaultParts) -> Fault {
    Fault {
        depth,
        address,
        cause,
    }
}

pub(crate) fn goes(place: Place) -> Result<Translation, Fault> {
    match place {
        Ok((address, size)) => Ok(Translation { address, size }),
        Err(missing) => Err(fault(missing)),
    }
}

// An entry of a page table, which lies there with its lowest byte first.
pub(crate) trait Entry: Copy {
    fn lay(self, board: &mut Board, at: u64) -> Result<(), EditRefusal>;
}

impl Entry for u32 {
    fn lay(self, board: &mut Board, at: u64) -> Result<(), EditRefusal> {
        board.set(0, at, &self.to_le_bytes())
    }
}

impl Entry for u64 {
    fn lay(self, board: &mut Board, at: u64) -> Result<(), EditRefusal> {
        board.set(0, at, &self.to_le_bytes())
    }
}

// The bytes of an entry as they lie.
impl<const N: usize> Entry for [u8; N] {
    fn lay(self, board: &mut Board, at: u64) -> Result<(), EditRefusal> {
        board.set(0, at, &self)
    }
}

// Lays entries, each at its address.
pub(crate) fn lay<E: Entry>(board: &mut Board, entries: &[(u64, E)]) -> Result<(), EditRefusal> {
    for (at, entry) in entries {
        entry.lay(board, *at)?;
    }
    Ok(())
}

pub(crate) fn laid<E: Entry>(entries: &[(u64, E)]) -> Result<Board, EditRefusal> {
    let mut board = Overlay::new(Ramp { length: 0 });
    lay(&mut board, entries)?;
    Ok(board)
}

// Page tables, and how they are read.
#[derive(Clone, Copy)]
pub(crate) struct Tables<'a, P, E> {
    scheme: P,
    cr3: u64,
    entries: &'a [(u64, E)],
}

impl<'a, P: Scheme + Copy, E: Entry> Tables<'a, P, E> {
    pub(crate) fn new(scheme: P, cr3: u64, entries: &'a [(u64, E)]) -> Self {
        Tables {
            scheme,
            cr3,
            entries,
        }
    }

    pub(crate) fn over(&self, board: Board) -> Paging<P, Board> {
        Paging::new(self.scheme, self.cr3, board)
    }

    pub(crate) fn paging(&self) -> Result<Paging<P, Board>, EditRefusal> {
        Ok(self.over(laid(self.entries)?))
    }

    // Each address goes where it should, or has the fault that it should.
    pub(crate) fn lead(&self, rt: &impl Abort, cases: &[(u64, Place)]) -> Result<(), EditRefusal> {
        translate(rt, &self.paging()?, cases);
        Ok(())
    }

    // Edits of the board break the walk of an address, each time starting from the tables as they were.
    pub(crate) fn breaks(
        &self,
        rt: &impl Abort,
        at: u64,
        cases: &[Break],
    ) -> Result<(), EditRefusal> {
        for (edits, missing) in cases {
            let mut paging = self.paging()?;
            for edit in *edits {
                edit.make(&mut paging, 1)?;
            }
            assert_eq!(rt; paging.translate(at), Err(fault(*missing)));
        }
        Ok(())
    }
}

// Each address goes where it should, or has the fault that it should.
pub(crate) fn translate<P: Scheme, S: Space>(
    rt: &impl Abort,
    paging: &Paging<P, S>,
    cases: &[(u64, Place)],
) {
    for (at, place) in cases {
        assert_eq!(rt; paging.translate(*at), goes(*place));
    }
}

// Edits, one after another, and what one address then has.
pub(crate) fn follow<S: Space>(rt: &impl Abort, space: &mut S, at: u64, steps: &[Step]) {
    for (depth, edit, outcome, after) in steps {
        assert_eq!(rt; edit.make(space, *depth), *outcome);
        assert_eq!(rt; space.byte(at), after.map_err(fault));
    }
}

// Each address has its byte, or the fault that it should.
pub(crate) fn show<S: Space>(rt: &impl Abort, space: &S, cases: &[(u64, Result<u8, FaultParts>)]) {
    for (at, byte) in cases {
        assert_eq!(rt; space.byte(*at), byte.map_err(fault));
    }
}

// A read of eight bytes from each address gives so many, and then the fault that it should. What it does not reach of the
// buffer stays dots.
pub(crate) fn fill<S: Space>(
    rt: &impl Abort,
    space: &S,
    cases: &[(u64, usize, Option<FaultParts>, [u8; 8])],
) {
    for (first, count, missing, bytes) in cases {
        let mut out = *b"........";
        assert_eq!(rt; space.fill(*first, &mut out), (*count, missing.map(fault)));
        assert_eq!(rt; out, *bytes);
    }
}
