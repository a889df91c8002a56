// The sample cart's dump through its page tables.

use crate::tell::{tell_byte, tell_fill, tell_load, tell_patch, tell_set, tell_translation};
use extents::Table;
use images::{Image, LimeRange, load_lime};
use overlays::Overlay;
use paging::{FourLevel, Paging};
use spaces::Space;
use std::{fs, io};

// Where the cart's root table is.
const CR3: u64 = 0x1000;

pub(crate) fn walk_aisle(rt: &HostRuntime) -> io::Result<()> {
    let file = fs::read(rt, "aisle.lime")?;
    let mut memory = [LimeRange::default(); 64];
    let mut table = Table::new(&mut memory);
    tell_load(rt, "aisle.lime", load_lime(&file, &mut table))?;
    walk(rt, Image::new(table, &file))
}

// The pile, from the top: an overlay, four-level paging, an overlay, the dump.
fn walk<S: Space + Drop>(rt: &HostRuntime, dump: S) -> io::Result<()> {
    println!(rt; "through the tables at {CR3:016x}")?;
    let mut paging = Paging::new(FourLevel, CR3, Overlay::new(dump));
    tell_translation(rt, &paging, 0xffc)?;
    tell_translation(rt, &paging, 0x1000)?;
    tell_translation(rt, &paging, 0x200000)?;
    tell_translation(rt, &paging, 1 << 47)?;
    // the next page's entry, which is not on the way of this address
    tell_patch(rt, &mut paging, 0x4008, b"\x02", 0xffc)?;
    mend(rt, &mut Overlay::new(paging))
}

// Reads across the end of the one page there is, and then gives the next page an entry in the lower overlay.
fn mend<S: Space>(rt: &HostRuntime, space: &mut S) -> io::Result<()> {
    println!(rt; "through the tables and under an overlay")?;
    tell_fill(rt, space, 0xffc)?;
    tell_byte(rt, space, 0)?;
    tell_byte(rt, space, 0x200000)?;
    tell_byte(rt, space, 1 << 47)?;
    tell_set(rt, space, 2, 0x4008, b"\x03\x50", 0x1ffc)?;
    tell_fill(rt, space, 0xffc)?;
    tell_fill(rt, space, 0x1ffc)
}
