#![tactic(auto)]

mod day;
mod paged;
mod talk;
mod tell;

use day::replay_day;
use extents::Table;
use images::{Image, LimeRange, RawExtent, load_lime, load_raw};
use overlays::Overlay;
use paged::walk_aisle;
use spaces::Space;
use std::{fs, io};
use talk::hear_talk;
use tell::{list, tell_byte, tell_clear, tell_fill, tell_load, tell_set};

// One task from beginning to end: dumps are loaded, listed, read, walked and patched, and refused where they are damaged;
// what GDB sends is heard, and a day with it is replayed.
fn main(rt: HostRuntime) -> io::Result<()> {
    read_aisle(&rt)?;
    walk_aisle(&rt)?;
    read_cut(&rt)?;
    read_raw(&rt)?;
    try_load(&rt, "header.lime", 64)?;
    try_load(&rt, "version2.lime", 64)?;
    try_load(&rt, "overlap.lime", 64)?;
    try_load(&rt, "aisle.lime", 2)?;
    hear_talk(&rt)?;
    replay_day(&rt)
}

// The dump of the sample cart, as it is and under an overlay.
fn read_aisle(rt: &HostRuntime) -> io::Result<()> {
    let file = fs::read(rt, "aisle.lime")?;
    let mut memory = [LimeRange::default(); 64];
    let mut table = Table::new(&mut memory);
    tell_load(rt, "aisle.lime", load_lime(&file, &mut table))?;
    list(rt, &table)?;
    let image = Image::new(table, &file);
    tell_byte(rt, &image, 0x1001)?;
    tell_byte(rt, &image, 0x5fff)?;
    tell_byte(rt, &image, 0x6000)?;
    tell_fill(rt, &image, 0x5ffc)?;
    patch(rt, &mut Overlay::new(image))
}

// Bytes are patched, read again and taken back, until no more patches fit.
fn patch<S: Space>(rt: &HostRuntime, space: &mut S) -> io::Result<()> {
    println!(rt; "under an overlay")?;
    tell_set(rt, space, 0, 0x5ffd, b"ZZ", 0x5ffd)?;
    tell_fill(rt, space, 0x5ffc)?;
    tell_clear(rt, space, 0, 0x5ffd, 1)?;
    tell_fill(rt, space, 0x5ffc)?;
    tell_set(rt, space, 0, 0x6000, &[0xee; 255], 0x6000)?;
    tell_set(rt, space, 0, 0x60ff, b"Z", 0x60ff)?;
    tell_clear(rt, space, 0, 0, u64::MAX)?;
    tell_fill(rt, space, 0x5ffc)?;
    tell_set(rt, space, 1, 0x5ffd, b"Z", 0x5ffd)
}

// The same dump without its last two bytes.
fn read_cut(rt: &HostRuntime) -> io::Result<()> {
    let file = fs::read(rt, "cut.lime")?;
    let mut memory = [LimeRange::default(); 64];
    let mut table = Table::new(&mut memory);
    tell_load(rt, "cut.lime", load_lime(&file, &mut table))?;
    let image = Image::new(table, &file);
    tell_fill(rt, &image, 0x5ffc)?;
    tell_byte(rt, &image, 0x5fff)
}

// A raw file.
fn read_raw(rt: &HostRuntime) -> io::Result<()> {
    let file = fs::read(rt, "board.raw")?;
    let mut memory = [RawExtent::default(); 1];
    let mut table = Table::new(&mut memory);
    tell_load(rt, "board.raw", load_raw(&file, &mut table))?;
    let image = Image::new(table, &file);
    tell_fill(rt, &image, 0)
}

// A file under a table of so many extents, at most 64.
fn try_load(rt: &HostRuntime, name: &str, room: usize) -> io::Result<()> {
    let file = fs::read(rt, name)?;
    let mut memory = [LimeRange::default(); 64];
    let mut table = Table::new(&mut memory[..room.min(64)]);
    tell_load(rt, name, load_lime(&file, &mut table))
}
