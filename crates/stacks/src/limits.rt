use crate::steps::Step::{self, Byte, Bytes, Clear, Fill, Set};
use crate::steps::steps;
use outsiders::Ramp;
use overlays::{Overlay, PatchTable};
use spaces::{EditRefusal, Space};

// With 256 patches one more is refused.
const ONE_MORE: &[Step] = &[
    Set(0, 0, &[7; 256], Ok(())),
    Set(0, 256, &[9], Err(EditRefusal::TooManyPatches)),
    Byte(255, Ok(7)),
    Byte(256, Ok(0)),
    Set(0, 100, &[9; 200], Err(EditRefusal::TooManyPatches)),
    Byte(100, Ok(7)),
];

// One in place of another is accepted.
const REPLACED: &[Step] = &[
    Set(0, 0, &[7; 256], Ok(())),
    Set(0, 255, &[9], Ok(())),
    Byte(255, Ok(9)),
    Byte(254, Ok(7)),
    Set(0, 0, &[8; 256], Ok(())),
    Bytes(0, &[8; 256]),
    Byte(256, Ok(0)),
];

// With 255 patches, what is new is counted and not what is replaced.
const OLD_AND_NEW: &[Step] = &[
    Set(0, 0, &[7; 255], Ok(())),
    Set(0, 254, &[1, 2, 3], Err(EditRefusal::TooManyPatches)),
    Byte(254, Ok(7)),
    Byte(255, Ok(255)),
    Set(0, 254, &[1, 2], Ok(())),
    Byte(253, Ok(7)),
    Byte(254, Ok(1)),
    Byte(255, Ok(2)),
    Set(0, 256, &[3], Err(EditRefusal::TooManyPatches)),
];

// A clear takes back its addresses alone.
const CLEARED: &[Step] = &[
    Set(0, 0, &[7; 8], Ok(())),
    Clear(0, 2, 3, Ok(())),
    Fill(0, &[7, 7, 2, 3, 4, 7, 7, 7, 8], 9, None),
];

// An overlay over bytes that count up from 0 to 0xff.
fn counting() -> Overlay<Ramp> {
    Overlay::new(Ramp { length: 0x200 })
}

#[test]
fn at_most_256_patches(rt: HostRuntime) {
    for turns in [ONE_MORE, REPLACED, OLD_AND_NEW, CLEARED] {
        steps(&rt, &mut counting(), turns);
    }
}

const ALL_BACK: &[Step] = &[Set(0, 0, &[7; 256], Ok(())), Clear(0, 0, u64::MAX, Ok(()))];

const SET_ANEW: &[Step] = &[Set(0, 0x1000, &[9; 256], Ok(())), Byte(0x10ff, Ok(9))];

#[test]
fn one_clear_takes_all_back(rt: HostRuntime) {
    let mut space = counting();
    steps(&rt, &mut space, ALL_BACK);
    for at in 0..=255u8 {
        assert!(rt; space.byte(at as u64) == Ok(at), "{at}");
    }
    steps(&rt, &mut space, SET_ANEW);
}

// Patches that come in no order are all kept.
#[test]
fn none_is_forgotten(rt: HostRuntime) {
    let mut table = PatchTable::new();
    for i in 0..256u64 {
        let at = (i * 167) % 256;
        assert!(rt; table.set(at * 0x1000, &[(at % 256) as u8]) == Ok(()));
    }
    assert!(rt; table.len() == 256);
    for at in 0..256u64 {
        assert!(rt; table.lookup(at * 0x1000) == Some((at % 256) as u8));
        assert!(rt; table.lookup(at * 0x1000 + 1).is_none());
    }
    assert!(rt; table.clear(0x1000, 0x2000) == Ok(()));
    assert!(rt; table.len() == 254);
    assert!(rt; table.lookup(0x1000).is_none());
    assert!(rt; table.lookup(0x3000) == Some(3));
}
