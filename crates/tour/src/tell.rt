// What the tour prints of each step. The runtime is passed along, as whatever prints must be given it.

use extents::Table;
use images::{LimeRange, NotLoaded};
use paging::{Paging, Scheme};
use spaces::{EditRefusal, Fault, Space, Watched, locate, watched_set};
use std::io;

pub(crate) fn tell_load(
    rt: &HostRuntime,
    name: &str,
    loaded: Result<usize, NotLoaded>,
) -> io::Result<()> {
    match loaded {
        Ok(count) => println!(rt; "{name}: loaded, extents: {count}"),
        Err(not) => println!(rt; "{name}: {not}"),
    }
}

pub(crate) fn list(rt: &HostRuntime, table: &Table<'_, LimeRange>) -> io::Result<()> {
    for range in table.as_slice() {
        println!(rt; "  {range}")?;
    }
    Ok(())
}

// A set of some bytes at a depth, and what one address had before and has after it.
pub(crate) fn tell_set<S: Space>(
    rt: &HostRuntime,
    space: &mut S,
    depth: u8,
    first: u64,
    bytes: &[u8],
    at: u64,
) -> io::Result<()> {
    let count = bytes.len();
    print!(rt; "  set of {count} at {first:016x}, depth {depth}: ")?;
    tell_watched(rt, at, watched_set(space, depth, first, bytes, at))
}

// The same right below paging.
pub(crate) fn tell_patch<P: Scheme, S: Space>(
    rt: &HostRuntime,
    paging: &mut Paging<P, S>,
    first: u64,
    bytes: &[u8],
    at: u64,
) -> io::Result<()> {
    let count = bytes.len();
    print!(rt; "  set of {count} at {first:016x} below: ")?;
    tell_watched(rt, at, paging.patch_below(first, bytes, at))
}

fn tell_watched(rt: &HostRuntime, at: u64, watched: Watched) -> io::Result<()> {
    tell_outcome(rt, watched.outcome)?;
    print!(rt; "    before: ")?;
    tell_answer(rt, at, watched.before)?;
    print!(rt; "    after: ")?;
    tell_answer(rt, at, watched.after)
}

pub(crate) fn tell_clear<S: Space>(
    rt: &HostRuntime,
    space: &mut S,
    depth: u8,
    first: u64,
    count: u64,
) -> io::Result<()> {
    print!(rt; "  clear of {count} at {first:016x}, depth {depth}: ")?;
    tell_outcome(rt, space.clear(depth, first, count))
}

fn tell_outcome(rt: &HostRuntime, outcome: Result<(), EditRefusal>) -> io::Result<()> {
    match outcome {
        Ok(()) => println!(rt; "done"),
        Err(refusal) => println!(rt; "refused {refusal}"),
    }
}

pub(crate) fn tell_byte<S: Space>(rt: &HostRuntime, space: &S, at: u64) -> io::Result<()> {
    print!(rt; "  ")?;
    tell_answer(rt, at, locate(space, at))
}

pub(crate) fn tell_answer(rt: &HostRuntime, at: u64, answer: Result<u8, Fault>) -> io::Result<()> {
    match answer {
        Ok(b) => println!(rt; "{at:016x} has {b:02x}"),
        Err(fault) => println!(rt; "{at:016x} has no byte: {fault}"),
    }
}

// Where the tables send an address, or what is missing on the way.
pub(crate) fn tell_translation<P: Scheme, S: Space>(
    rt: &HostRuntime,
    paging: &Paging<P, S>,
    at: u64,
) -> io::Result<()> {
    match paging.translate(at) {
        Ok(translation) => {
            let address = translation.address;
            let size = translation.size;
            println!(rt; "  {at:016x} goes to {address:016x}, on a page of {size} bytes")
        }
        Err(fault) => println!(rt; "  {at:016x} goes nowhere: {fault}"),
    }
}

// Up to eight bytes from an address on.
pub(crate) fn tell_fill<S: Space>(rt: &HostRuntime, space: &S, first: u64) -> io::Result<()> {
    let mut out = [0u8; 8];
    let (count, fault) = space.fill(first, &mut out);
    print!(rt; "  {first:016x} on:")?;
    for b in out.iter().take(count) {
        print!(rt; " {b:02x}")?;
    }
    match fault {
        None => println!(rt; ""),
        Some(fault) => println!(rt; ", then no byte: {fault}"),
    }
}

// Bytes as their characters.
pub(crate) fn tell_text(rt: &HostRuntime, text: &[u8]) -> io::Result<()> {
    for b in text {
        let c = char::from(*b);
        print!(rt; "{c}")?;
    }
    Ok(())
}
