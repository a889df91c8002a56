use outsiders::Ramp;
use overlays::Overlay;
use spaces::{EditRefusal, Fault, Space};
use std::process::Abort;
use std::test::Fail;

// What there is at the addresses 0 to 12: below there are bytes at 0 to 7, and the patches are letters. A 0xee stands
// where there is nothing.
const SHOWN: [u8; 13] = *b"A\x01BC\x04\x05\x06DE\xee\xeeF\xee";

// How many of them from each on have a byte.
const UNBROKEN: [usize; 13] = [9, 8, 7, 6, 5, 4, 3, 2, 1, 0, 0, 1, 0];

fn patched() -> Result<Overlay<Ramp>, EditRefusal> {
    let mut space = Overlay::new(Ramp { length: 8 });
    space.set(0, 0, b"A")?;
    space.set(0, 2, b"BC")?;
    space.set(0, 7, b"DE")?;
    space.set(0, 11, b"F")?;
    Ok(space)
}

// A read from an address on, where so many have bytes.
fn reads(rt: &impl Abort, space: &Overlay<Ramp>, first: usize, length: usize, unbroken: usize) {
    let mut out = [0xee; 10];
    let (count, met) = space.fill(first as u64, &mut out[..length.min(10)]);
    assert!(rt; count == length.min(unbroken));
    let absent = Fault {
        depth: 1,
        address: first.saturating_add(unbroken) as u64,
        cause: 0x77,
    };
    assert!(rt; met == (unbroken < length).then_some(absent));
    assert!(rt; out.starts_with(&SHOWN[first.min(13)..first.saturating_add(count).min(13)]));
    assert!(rt; out[count.min(10)..].iter().all(|byte| *byte == 0xee));
}

// Reads of every length up to 9 from every address on: stretches with a patch before them, behind them, at both ends or
// at none, patches over absent bytes, and faults between patches.
#[test]
fn every_read_of_patches_and_stretches(rt: HostRuntime) -> Result<(), Fail> {
    let space = patched()?;
    for (first, unbroken) in UNBROKEN.into_iter().enumerate() {
        for length in 0..10 {
            reads(&rt, &space, first, length, unbroken);
        }
    }
    Ok(())
}
