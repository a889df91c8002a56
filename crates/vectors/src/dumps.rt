use extents::Table;
use images::{Image, LimeRange, NotLoaded, load_lime};
use spaces::{Fault, Space};
use std::alloc::AllocError;
use std::process::Abort;

// A range of a LiME file: magic and version, first and last address, and its bytes.
pub(crate) type Range<'a> = (&'a [u8; 5], u64, u64, &'a [u8]);

// A file of these ranges. The version has three zeros more, and behind the addresses come eight bytes that nobody reads.
pub(crate) fn lay(file: &mut Vec<u8>, ranges: &[Range]) -> Result<(), AllocError> {
    for (start, first, last, bytes) in ranges {
        file.extend_from_slice(*start)?;
        file.extend_from_slice(&[0; 3])?;
        file.extend_from_slice(&first.to_le_bytes())?;
        file.extend_from_slice(&last.to_le_bytes())?;
        file.extend_from_slice(b"reserved")?;
        file.extend_from_slice(bytes)?;
    }
    Ok(())
}

// What a load answers, under a table of at most eight extents.
pub(crate) fn loaded(file: &[u8], room: usize) -> Result<usize, NotLoaded> {
    let mut memory = [LimeRange::default(); 8];
    let mut table = Table::new(&mut memory[..room.min(8)]);
    load_lime(file, &mut table)
}

// What the image of a file has at an address, where the file loads.
pub(crate) fn byte(file: &[u8], at: u64) -> Result<Result<u8, Fault>, NotLoaded> {
    let mut memory = [LimeRange::default(); 8];
    let mut table = Table::new(&mut memory);
    load_lime(file, &mut table)?;
    Ok(Image::new(table, file).byte(at))
}

// The fault of an image. Each crate of tests has such a function of its own, as short as its tests want it.
pub(crate) fn fault(at: u64, cause: u8) -> Result<u8, Fault> {
    Err(Fault::own(at, cause))
}

// Addresses of the image of a file, each with its byte or the cause of its fault.
pub(crate) fn shows(rt: &impl Abort, file: &[u8], expected: &[(u64, Result<u8, u8>)]) {
    for (at, answer) in expected {
        let answer = answer.or_else(|cause| fault(*at, cause));
        assert!(rt; byte(file, *at) == Ok(answer), "{at:x}");
    }
}
