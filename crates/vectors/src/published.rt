use crate::dumps::{loaded, shows};
use images::{LoadRefusal, NotLoaded};
use std::process::Abort;
use std::test::Fail;

// What a C program writes that fills in the struct of the format's publication, as gcc 12.2 lays it for x86-64:
//
//     typedef struct {
//         unsigned int magic;        // 0x4C694D45
//         unsigned int version;      // 1
//         unsigned long long s_addr;
//         unsigned long long e_addr;
//         unsigned char reserved[8]; // zeros
//     } __attribute__ ((__packed__)) lime_mem_range_header;
//
// Its ranges are 0x9fbf8 to 0x9fbff, 0x1234_5678_9abc_def0 to 0x1234_5678_9abc_def1 and 0x1_0000_0000 to 0x1_0000_0003, the
// last address included, each followed by its bytes.
const DUMP: [u8; 110] = *b"\
    EMiL\x01\0\0\0\xf8\xfb\x09\0\0\0\0\0\xff\xfb\x09\0\0\0\0\0\0\0\0\0\0\0\0\0\
    low, end\
    EMiL\x01\0\0\0\xf0\xde\xbc\x9a\x78\x56\x34\x12\xf1\xde\xbc\x9a\x78\x56\x34\x12\0\0\0\0\0\0\0\0\
    hi\
    EMiL\x01\0\0\0\0\0\0\0\x01\0\0\0\x03\0\0\0\x01\0\0\0\0\0\0\0\0\0\0\0\
    4GiB";

const SHOWN: &[(u64, Result<u8, u8>)] = &[
    (0x9_fbf7, Err(1)),
    (0x9_fbf8, Ok(b'l')),
    (0x9_fbff, Ok(b'd')),
    (0x9_fc00, Err(1)),
    (0xffff_ffff, Err(1)),
    (0x1_0000_0000, Ok(b'4')),
    (0x1_0000_0003, Ok(b'B')),
    (0x1_0000_0004, Err(1)),
    (0x1234_5678_9abc_def0, Ok(b'h')),
    (0x1234_5678_9abc_def1, Ok(b'i')),
    (0x1234_5678_9abc_def2, Err(1)),
    // the same digits with the lowest byte last
    (0xf0de_bc9a_7856_3412, Err(1)),
];

#[test]
fn a_dump_of_the_published_struct(rt: HostRuntime) {
    assert!(rt; loaded(&DUMP, 8) == Ok(3));
    shows(&rt, &DUMP, SHOWN);
}

// The first header with one byte changed.
fn loads_with(rt: &impl Abort, place: usize, value: u8, expected: Result<usize, NotLoaded>) {
    let mut dump = DUMP;
    if let Some(slot) = dump.get_mut(place) {
        *slot = value;
    }
    assert!(rt; loaded(&dump, 8) == expected, "{place}");
}

// Each byte of the magic and of the version counts, and no reserved one.
#[test]
fn each_byte_of_a_header(rt: HostRuntime) -> Result<(), Fail> {
    let bad = Err(NotLoaded {
        refusal: LoadRefusal::BadHeader,
        place: 0,
        written: 0,
    });
    for place in 0..8 {
        loads_with(&rt, place, 0x5a, bad);
    }
    for place in 24..32 {
        loads_with(&rt, place, 0x5a, Ok(3));
    }
    // the last address becomes 0x9fbf7, one below the first
    loads_with(&rt, 16, 0xf7, bad);
    Ok(())
}
