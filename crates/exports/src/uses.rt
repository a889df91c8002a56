use crate::day::aisle_serve;
use crate::loading::aisle_load;
use crate::reading::{aisle_read, aisle_read_bytewise};
use crate::told::Told;
use std::test::Fail;

// A LiME file of one range, address 0x20 to 0x23.
const DUMP: [u8; 36] = *b"EMiL\x01\0\0\0\x20\0\0\0\0\0\0\0\x23\0\0\0\0\0\0\0\0\0\0\0\0\0\0\0abcd";

// Patches 0x41 and 0x42 at the addresses 0x10 and 0x11.
const FILE: [u8; 32] = *b"\
    \x10\0\0\0\0\0\0\0\0\x01\0\0\x41\0\0\0\
    \x11\0\0\0\0\0\0\0\0\x01\0\0\x42\0\0\0";

const NOTHING: Told = Told {
    refusal: 0,
    place: 0,
    count: 0,
};

#[test]
fn loads(rt: HostRuntime) -> Result<(), Fail> {
    let cases = [
        (36, 64, (0, 0, 1)),
        (36, 0, (0x35, 0, 0)),
        (31, 64, (0x30, 0, 0)),
    ];
    for (length, room, (refusal, place, count)) in cases {
        let mut told = NOTHING;
        aisle_load(&DUMP[..length], room, &mut told);
        assert!(rt;
            told == Told {
                refusal,
                place,
                count
            }
        );
    }
    Ok(())
}

// Sixteen bytes are sent: they need room for as many.
#[test]
fn serves(rt: HostRuntime) -> Result<(), Fail> {
    let before = b"$qaisle.fault#c9";
    let after = b"$m10,1#2b";
    let mut told = NOTHING;
    let mut sent = [0xee; 20];
    aisle_serve(&DUMP, &[], before, &FILE, after, &mut sent, &mut told);
    assert!(rt;
        told == Told {
            refusal: 0,
            place: 2,
            count: 16
        }
    );
    assert!(rt; sent == *b"+$none#b0+$41#65\0\0\0\0");
    let mut sent = [0xee; 15];
    aisle_serve(&DUMP, &[], before, &FILE, after, &mut sent, &mut told);
    assert!(rt;
        told == Told {
            refusal: 0xff,
            place: 0,
            count: 0
        }
    );
    assert!(rt; sent == [0; 15]);
    Ok(())
}

// Of four bytes two are patched, and the others fault.
const TWO_READ: Told = Told {
    refusal: 0,
    place: 0,
    count: 2,
};

#[test]
fn reads(rt: HostRuntime) -> Result<(), Fail> {
    for piece in 0..6 {
        let mut told = NOTHING;
        let mut into = [0xee; 4];
        aisle_read(&DUMP, &[], &FILE, 0x10, piece, &mut into, &mut told);
        assert!(rt; told == TWO_READ);
        assert!(rt; into == [0x41, 0x42, 0xee, 0xee]);
    }
    Ok(())
}

#[test]
fn reads_bytewise(rt: HostRuntime) -> Result<(), Fail> {
    let mut told = NOTHING;
    let mut into = [0xee; 4];
    aisle_read_bytewise(&DUMP, &[], &FILE, 0x10, 4, &mut into, &mut told);
    assert!(rt; told == TWO_READ);
    assert!(rt; into == [0x41, 0x42, 0xee, 0xee]);
    Ok(())
}
