ghost use Rattle.std.specs.Prelude.{◌≡◌};
ghost use Rattle.spaces.specs.Reads.{Fills};
ghost use Rattle.spaces.specs.Piles.{shown};
ghost use Rattle.exports.specs.Readings.{read_patched, reading, Reads};

use crate::bytewise::Bytewise;
use crate::told::Told;
use carts::{RANGES, cr3_in, layer};
use extents::Table;
use images::{Image, LimeRange, load_lime};
use patchfiles::apply;
use spaces::{Fault, Space, most};

// Fills a buffer as `Space::fill` does, in pieces of so many addresses.
fn fill_in_pieces<S: Space>(
    space: &S,
    first: u64,
    piece: usize,
    into: &mut [u8],
) -> (usize, Option<Fault>)
    ensures { Fills (shown (S.Space.meaning space.now)) first into.old into.new result }
{
    let size = piece.max(1);
    let room = most(first, into);
    let mut count = 0;
    while count < room {
        let end = count + size.min(room - count);
        let (placed, fault) = space.fill(first + count as u64, &mut into[count..end]);
        count += placed;
        if count < end {
            return (count, fault);
        }
    }
    (count, None)
}

// Reads a space under a patch file.
fn read_patched<S: Space + Drop>(
    space: S,
    file: &[u8],
    first: u64,
    piece: usize,
    into: &mut [u8],
) -> Told
    ensures { Reads (read_patched (S.Space.meaning space) file.now first into.old) result into.old into.new }
{
    let mut space = space;
    match apply(&mut space, file) {
        Ok(_) => Told::done(0, fill_in_pieces(&space, first, piece, into).0),
        Err(stopped) => Told::refused(stopped.refusal, stopped.index, 0),
    }
}

// The same by the space's own fills, or byte by byte.
fn read_either_way<S: Space + Drop>(
    space: S,
    bytewise: bool,
    file: &[u8],
    first: u64,
    piece: usize,
    into: &mut [u8],
) -> Told
    ensures { Reads (read_patched (S.Space.meaning space) file.now first into.old) result into.old into.new }
{
    if bytewise {
        read_patched(Bytewise { within: space }, file, first, piece, into)
    } else {
        read_patched(space, file, first, piece, into)
    }
}

// Reads the cart of a dump, all of its bytes, and a root file.
fn read_cart(
    dump: &[u8],
    root: &[u8],
    bytewise: bool,
    file: &[u8],
    first: u64,
    piece: usize,
    into: &mut [u8],
) -> Told
    ensures { Reads (reading dump.now root.now file.now first into.old) result into.old into.new }
{
    let mut memory = [LimeRange::default(); RANGES];
    let mut table = Table::new(&mut memory);
    match load_lime(dump, &mut table) {
        Ok(_) => read_either_way(
            layer(Image::new(table, dump), cr3_in(root)),
            bytewise,
            file,
            first,
            piece,
            into,
        ),
        Err(not) => Told::refused(not.refusal, not.place, 0),
    }
}

// Reads a cart from an address on up to the first fault, the buffer's end or the last address, in pieces of so many addresses.
// Tells the refusal of the dump with the place in it, or that of the patch file with the record's index, or how many bytes were
// placed.
#[unsafe(no_mangle)]
pub extern "C" fn aisle_read(
    dump: &[u8],
    root: &[u8],
    file: &[u8],
    first: u64,
    piece: usize,
    into: &mut [u8],
    told: &mut Told,
)
    ensures { Reads (reading dump.now root.now file.now first into.old) told.new into.old into.new }
{
    *told = read_cart(dump, root, false, file, first, piece, into);
}

// Answers what `aisle_read` does, and walks the tables anew for each byte: for comparison.
#[unsafe(no_mangle)]
pub extern "C" fn aisle_read_bytewise(
    dump: &[u8],
    root: &[u8],
    file: &[u8],
    first: u64,
    piece: usize,
    into: &mut [u8],
    told: &mut Told,
)
    ensures { Reads (reading dump.now root.now file.now first into.old) told.new into.old into.new }
{
    *told = read_cart(dump, root, true, file, first, piece, into);
}
