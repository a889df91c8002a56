use crate::dumps::{Range, lay, loaded, shows};
use extents::Table;
use images::{LimeRange, LoadRefusal, NotLoaded, load_lime};
use numbers::Numbered;
use std::test::Fail;

const NUMBERS: &[(LoadRefusal, u8)] = &[
    (LoadRefusal::HeaderCut, 0x30),
    (LoadRefusal::BadHeader, 0x31),
    (LoadRefusal::Overlap, 0x34),
    (LoadRefusal::TableFull, 0x35),
];

#[test]
fn refusals_have_their_numbers(rt: HostRuntime) {
    for (refusal, number) in NUMBERS {
        assert!(rt; refusal.number() == *number);
    }
}

// A refusal, the place where it stopped, and how many extents are written.
fn refused((refusal, place, written): (LoadRefusal, usize, usize)) -> NotLoaded {
    NotLoaded {
        refusal,
        place,
        written,
    }
}

const ONE: &[Range] = &[(b"EMiL\x01", 0, 3, b"abcd")];

const TWICE: &[Range] = &[(b"EMiL\x01", 0, 3, b"abcd"), (b"EMiL\x01", 0, 3, b"abcd")];

const OVERLAPPING: &[Range] = &[
    (b"EMiL\x01", 0, 9, b"0123456789"),
    (b"EMiL\x01", 9, 12, b"9abc"),
];

// A range of all addresses.
const ALL: &[Range] = &[(b"EMiL\x01", 0, u64::MAX, b"abc")];

// Ranges, how many bytes of their file are there at the most, the room of the table, and what a load answers.
type Load<'a> = (
    &'a [Range<'a>],
    usize,
    usize,
    Result<usize, (LoadRefusal, usize, usize)>,
);

const LOADS: &[Load] = &[
    (&[], 0, 0, Ok(0)),
    (ONE, 31, 8, Err((LoadRefusal::HeaderCut, 0, 0))),
    (ONE, 32, 8, Ok(1)),
    (TWICE, 37, 8, Err((LoadRefusal::HeaderCut, 36, 1))),
    (
        &[(b"EMiL\x02", 0, 3, b"")],
        32,
        8,
        Err((LoadRefusal::BadHeader, 0, 0)),
    ),
    (
        &[(b"LMiL\x01", 0, 3, b"abcd")],
        36,
        8,
        Err((LoadRefusal::BadHeader, 0, 0)),
    ),
    // the last address is below the first
    (
        &[(b"EMiL\x01", 7, 7, b"x"), (b"EMiL\x01", 4, 3, b"")],
        65,
        8,
        Err((LoadRefusal::BadHeader, 33, 1)),
    ),
    (OVERLAPPING, 78, 8, Err((LoadRefusal::Overlap, 42, 1))),
    // 34 before 35
    (OVERLAPPING, 78, 1, Err((LoadRefusal::Overlap, 42, 1))),
    // 31 before 34 and 35
    (
        &[
            (b"EMiL\x01", 0, 9, b"0123456789"),
            (b"EMiL\x02", 9, 12, b""),
        ],
        74,
        1,
        Err((LoadRefusal::BadHeader, 42, 1)),
    ),
    (ALL, 35, 1, Ok(1)),
];

#[test]
fn files_load_or_are_refused(rt: HostRuntime) -> Result<(), Fail> {
    for (ranges, length, room, expected) in LOADS {
        let mut file = Vec::new(rt.alloc());
        lay(&mut file, ranges)?;
        assert!(rt; file.len() >= *length);
        let expected = expected.map_err(refused);
        assert!(rt;
            loaded(&file[..(*length).min(file.len())], *room) == expected,
            "{length}"
        );
    }
    Ok(())
}

const THREE: &[Range] = &[
    (b"EMiL\x01", 0, 0, b"a"),
    (b"EMiL\x01", 1, 1, b"b"),
    (b"EMiL\x01", 2, 2, b"c"),
];

fn extent(first: u64, last: u64, place: u64) -> LimeRange {
    LimeRange { first, last, place }
}

#[test]
fn tables_are_full(rt: HostRuntime) -> Result<(), Fail> {
    let mut file = Vec::new(rt.alloc());
    lay(&mut file, THREE)?;
    let old = extent(7, 8, 9);
    let mut memory = [old; 3];
    let mut table = Table::new(&mut memory[0..2]);
    let full = refused((LoadRefusal::TableFull, 66, 2));
    assert!(rt; load_lime(&file, &mut table) == Err(full));
    assert!(rt; table.get(1) == Some(extent(1, 1, 65)) && table.get(2).is_none());
    // later entries are as they were
    assert!(rt; memory == [extent(0, 0, 32), extent(1, 1, 65), old]);
    Ok(())
}

#[test]
fn a_table_is_loaded_anew(rt: HostRuntime) -> Result<(), Fail> {
    let mut file = Vec::new(rt.alloc());
    lay(&mut file, &THREE[..2])?;
    let mut memory = [LimeRange::default(); 2];
    let mut table = Table::new(&mut memory);
    for _ in 0..2 {
        assert!(rt; load_lime(&file, &mut table) == Ok(2));
    }
    assert!(rt; load_lime(b"", &mut table) == Ok(0));
    assert!(rt; table.len() == 0);
    Ok(())
}

const ENDS: &[Range] = &[
    (b"EMiL\x01", 0x10, 0x12, b"abc"),
    (b"EMiL\x01", 0x13, 0x14, b"de"),
    (b"EMiL\x01", u64::MAX - 1, u64::MAX, b"yz"),
];

const AT_THE_ENDS: &[(u64, Result<u8, u8>)] = &[
    (0x0f, Err(1)),
    (0x10, Ok(b'a')),
    (0x12, Ok(b'c')),
    (0x13, Ok(b'd')),
    (0x14, Ok(b'e')),
    (0x15, Err(1)),
    (u64::MAX - 2, Err(1)),
    (u64::MAX - 1, Ok(b'y')),
    (u64::MAX, Ok(b'z')),
];

#[test]
fn ends_of_ranges(rt: HostRuntime) -> Result<(), Fail> {
    let mut file = Vec::new(rt.alloc());
    lay(&mut file, ENDS)?;
    shows(&rt, &file, AT_THE_ENDS);
    let mut file = Vec::new(rt.alloc());
    lay(&mut file, ALL)?;
    shows(
        &rt,
        &file,
        &[(2, Ok(b'c')), (3, Err(2)), (u64::MAX, Err(2))],
    );
    shows(&rt, b"", &[(0, Err(1))]);
    Ok(())
}
