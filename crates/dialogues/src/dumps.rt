use crate::session::dialogue;
use carts::{RANGES, cr3_in, load_cart};
use images::{LimeRange, LoadRefusal};
use std::alloc::AllocError;
use std::test::Fail;

// CR3 by so many bytes of a root file: the lowest is the first, and those that are missing are zeros.
const ROOTS: &[u64] = &[
    0,
    0x01,
    0x0201,
    0x03_0201,
    0x0403_0201,
    0x05_0403_0201,
    0x0605_0403_0201,
    0x07_0605_0403_0201,
    // more than eight count no more
    0x0807_0605_0403_0201,
    0x0807_0605_0403_0201,
    0x0807_0605_0403_0201,
];

#[test]
fn roots_of_every_length(rt: HostRuntime) {
    let root = [1, 2, 3, 4, 5, 6, 7, 8, 9, 10];
    for (n, cr3) in ROOTS.iter().enumerate() {
        assert!(rt; cr3_in(&root[..n.min(10)]) == *cr3, "{n}");
    }
}

// A range of a LiME file: magic, version, first and last address, eight zeros, and its bytes.
fn range(file: &mut Vec<u8>, first: u64, last: u64, bytes: &[u8]) -> Result<(), AllocError> {
    file.extend_from_slice(b"EMiL\x01\0\0\0")?;
    file.extend_from_slice(&first.to_le_bytes())?;
    file.extend_from_slice(&last.to_le_bytes())?;
    file.extend_from_slice(&[0; 8])?;
    file.extend_from_slice(bytes)
}

// What the dump below shows, and the fault where its file ends.
const FIRST_BYTES: &[(&str, &str)] = &[
    ("mffde,4", "0077"),
    ("qaisle.fault", "03,000000000000ffe0,02"),
    ("mffe0,1", "E02"),
    ("m10000,1", "E01"),
];

// A dump of 0x10000 addresses, whose last 32 bytes lie behind the first 65,536 of its file. Its tables lead each address to
// itself, by a page of 1 GiB.
#[test]
fn the_first_65536_bytes_count(rt: HostRuntime) -> Result<(), Fail> {
    let mut bytes = [0; 0x1_0000];
    bytes[0] = 0x03;
    bytes[1] = 0x10;
    bytes[0x1000] = 0x83;
    bytes[0xffdf] = 0x77;
    bytes[0xffe0] = 0x78;
    let mut dump = Vec::new(rt.alloc());
    range(&mut dump, 0, 0xffff, &bytes)?;
    let mut memory = [LimeRange::default(); RANGES];
    dialogue(&rt, load_cart(&dump, b"", &mut memory)?, FIRST_BYTES);
    Ok(())
}

// So many ranges of one address each.
fn ranges(rt: &HostRuntime, count: u8) -> Result<Option<LoadRefusal>, Fail> {
    let mut dump = Vec::new(rt.alloc());
    for n in 0..count {
        let at = 16 * n as u64;
        range(&mut dump, at, at, b"\x5a")?;
    }
    let mut memory = [LimeRange::default(); RANGES];
    Ok(load_cart(&dump, b"", &mut memory).err())
}

#[test]
fn at_most_64_ranges(rt: HostRuntime) -> Result<(), Fail> {
    assert!(rt; ranges(&rt, 63)?.is_none());
    assert!(rt; ranges(&rt, 64)?.is_none());
    assert!(rt; ranges(&rt, 65)? == Some(LoadRefusal::TableFull));
    Ok(())
}

// Both overlays of a cart take patches, its paging and its dump none.
const EMPTY_DUMP: &[(&str, &str)] = &[
    ("m0,1", "E01"),
    ("qaisle.fault", "03,0000000000000000,01"),
    ("M0,1:5a", "OK"),
    ("m0,2", "5a"),
    ("Qaisle.depth:01", "OK"),
    ("M0,1:00", "E26"),
    ("Qaisle.depth:02", "OK"),
    ("M0,1:00", "OK"),
    ("Qaisle.depth:03", "OK"),
    ("M0,1:00", "E26"),
];

#[test]
fn an_empty_dump(rt: HostRuntime) -> Result<(), Fail> {
    let mut memory = [LimeRange::default(); RANGES];
    dialogue(&rt, load_cart(b"", b"", &mut memory)?, EMPTY_DUMP);
    Ok(())
}
