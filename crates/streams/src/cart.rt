use crate::peers::Pieces;
use crate::served::sends;
use carts::{RANGES, load_cart};
use images::{LimeRange, LoadRefusal};
use std::io::Read;
use std::process::Abort;
use std::test::Fail;

// The dump of the sample cart, a LiME file: each range has its magic, version, first and last address, eight zeros, and then
// its bytes.
pub(crate) const DUMP: [u8; 204] = *b"\
    EMiL\x01\0\0\0\0\x10\0\0\0\0\0\0\x07\x10\0\0\0\0\0\0\0\0\0\0\0\0\0\0\
    \x03\x20\0\0\0\0\0\0\
    EMiL\x01\0\0\0\0\x20\0\0\0\0\0\0\x07\x20\0\0\0\0\0\0\0\0\0\0\0\0\0\0\
    \x03\x30\0\0\0\0\0\0\
    EMiL\x01\0\0\0\0\x30\0\0\0\0\0\0\x07\x30\0\0\0\0\0\0\0\0\0\0\0\0\0\0\
    \x03\x40\0\0\0\0\0\0\
    EMiL\x01\0\0\0\0\x40\0\0\0\0\0\0\x0f\x40\0\0\0\0\0\0\0\0\0\0\0\0\0\0\
    \x03\x50\0\0\0\0\0\0\0\0\0\0\0\0\0\0\
    EMiL\x01\0\0\0\xfc\x5f\0\0\0\0\0\0\xff\x5f\0\0\0\0\0\0\0\0\0\0\0\0\0\0\
    \x41\x42\x43\x44";

// What GDB sends, and what is sent to it.
const STREAM: &[u8] = b"$mffc,8#00$Qaisle.depth:02#3e$M4008,2:0350#79$m1ffc,4#2d";

const SENT: &[u8] = b"+$41424344#9a+$OK#9a+$OK#9a+$41424344#9a";

fn cart_sends(
    rt: &(impl Abort + AllocGlobal),
    input: impl Read + Drop,
    expected: &[u8],
) -> Result<(), LoadRefusal> {
    let mut memory = [LimeRange::default(); RANGES];
    let cart = load_cart(&DUMP, b"\0\x10", &mut memory)?;
    sends(rt, cart, input, expected);
    Ok(())
}

#[test]
fn at_once_and_in_pieces_of_every_size(rt: HostRuntime) -> Result<(), Fail> {
    cart_sends(&rt, STREAM, SENT)?;
    for size in 1..=STREAM.len() {
        let pieces = Pieces {
            rest: STREAM,
            size,
            interrupted: false,
        };
        cart_sends(&rt, pieces, SENT)?;
    }
    Ok(())
}

// What was met on the way is told, and a second session has no fault yet.
#[test]
fn the_last_fault(rt: HostRuntime) -> Result<(), Fail> {
    let asked: &[u8] = b"$qaisle.fault#c9$mffc,8#00$qaisle.fault#c9";
    let told = b"+$none#b0+$41424344#9a+$01,0000000000001000,11#1c";
    cart_sends(&rt, asked, told)?;
    cart_sends(&rt, asked, told)?;
    Ok(())
}
