use crate::dumps::{Range, byte, fault, lay, loaded};
use images::{LoadRefusal, NotLoaded};
use spaces::Fault;
use std::test::Fail;

// Where the three headers of the dump below stand.
const STARTS: [usize; 3] = [0, 36, 70];

// What a load of the dump's first n bytes answers: a header that has begun has to be whole.
fn expected(n: usize) -> Result<usize, NotLoaded> {
    for (written, place) in STARTS.into_iter().enumerate() {
        if n <= place {
            return Ok(written);
        }
        if n - place < 32 {
            return Err(NotLoaded {
                refusal: LoadRefusal::HeaderCut,
                place,
                written,
            });
        }
    }
    Ok(STARTS.len())
}

// What the image has at an address of the second range, whose two bytes stand at places 68 and 69.
fn expected_byte(n: usize, at: u64) -> Result<u8, Fault> {
    if n <= 36 {
        return fault(at, 1);
    }
    if n > 68 && at == 0x20 {
        return Ok(b'e');
    }
    if n > 69 && at == 0x21 {
        return Ok(b'f');
    }
    fault(at, 2)
}

const DUMP: &[Range] = &[
    (b"EMiL\x01", 0x10, 0x13, b"abcd"),
    (b"EMiL\x01", 0x20, 0x21, b"ef"),
    (b"EMiL\x01", 0x30, 0x32, b"ghi"),
];

// A dump of three ranges, cut at each of its bytes.
#[test]
fn cut_at_each_byte(rt: HostRuntime) -> Result<(), Fail> {
    let mut file = Vec::new(rt.alloc());
    lay(&mut file, DUMP)?;
    assert!(rt; file.len() == 105);
    for n in 0..=file.len() {
        assert!(rt; loaded(&file[0..n], 8) == expected(n), "{n}");
        if expected(n).is_ok() {
            assert!(rt;
                byte(&file[0..n], 0x20) == Ok(expected_byte(n, 0x20)),
                "{n}"
            );
            assert!(rt;
                byte(&file[0..n], 0x21) == Ok(expected_byte(n, 0x21)),
                "{n}"
            );
        }
    }
    Ok(())
}
