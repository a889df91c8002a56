// What GDB sends, heard item by item, and what is asked for.

use crate::tell::tell_text;
use packets::{Command, CommandRefusal, FrameRefusal, Item, REPLY, digits, frame, hear};
use std::{fs, io};

pub(crate) fn hear_talk(rt: &HostRuntime) -> io::Result<()> {
    let received = fs::read(rt, "gdb.talk")?;
    let count = received.len();
    println!(rt; "gdb.talk: bytes received: {count}")?;
    let mut rest = received.as_slice();
    // an item uses a byte at least
    for _ in 0..count {
        let item = hear(rest);
        if item == Item::Unfinished {
            break;
        }
        tell_item(rt, item)?;
        rest = &rest[item.used()..];
    }
    let left = rest.len();
    println!(rt; "  bytes left, of a frame that has not come whole: {left}")?;
    tell_frame(rt, b"")?;
    tell_frame(rt, b"S05")
}

fn tell_item(rt: &HostRuntime, item: Item<'_>) -> io::Result<()> {
    let used = item.used();
    print!(rt; "  bytes used: {used}, ")?;
    if let Some(due) = item.due() {
        let due = char::from(due);
        print!(rt; "due: {due}, ")?;
    }
    match item {
        Item::Packet { payload } => {
            print!(rt; "packet ")?;
            tell_text(rt, payload)?;
            tell_command(rt, Command::parse(payload))
        }
        Item::Resend => println!(rt; "the latest reply is asked for again"),
        Item::Ignored => println!(rt; "ignored"),
        Item::Unfinished => println!(rt; "unfinished"),
        Item::WrongSum { .. } | Item::NoEnd => tell_refusal(rt, item.refusal()),
    }
}

fn tell_refusal(rt: &HostRuntime, refusal: Option<FrameRefusal>) -> io::Result<()> {
    if let Some(refusal) = refusal {
        print!(rt; "refused {refusal}")?;
    }
    println!(rt; "")
}

fn tell_command(rt: &HostRuntime, asked: Result<Command<'_>, CommandRefusal>) -> io::Result<()> {
    match asked {
        Err(refusal) => println!(rt; ": refused {refusal}"),
        Ok(Command::WhyHalted) => println!(rt; ": why it halted"),
        Ok(Command::Read { first, count }) => println!(rt; ": read of {count} at {first:016x}"),
        Ok(Command::Write { first, digits }) => tell_write(rt, first, digits),
        Ok(Command::Registers) => println!(rt; ": the registers"),
        Ok(Command::Detach) => println!(rt; ": GDB goes"),
        Ok(Command::Thread) => println!(rt; ": a thread is chosen"),
        Ok(Command::Supported) => println!(rt; ": what is supported"),
        Ok(Command::Depth(depth)) => println!(rt; ": patch at depth {depth} from now on"),
        Ok(Command::LastFault) => println!(rt; ": the last fault"),
        Ok(Command::Unknown) => println!(rt; ": not known here"),
    }
}

// A write, by its first eight bytes at the most.
fn tell_write(rt: &HostRuntime, first: u64, text: &[u8]) -> io::Result<()> {
    let mut bytes = [0; 8];
    let count = digits::bytes(text, &mut bytes);
    print!(rt; ": set at {first:016x}:")?;
    for b in bytes.iter().take(count) {
        print!(rt; " {b:02x}")?;
    }
    println!(rt; "")
}

// A reply's frame.
fn tell_frame(rt: &HostRuntime, payload: &[u8]) -> io::Result<()> {
    let mut reply = [0; REPLY];
    print!(rt; "  frame of a reply: ")?;
    if let Some(count) = frame(payload, &mut reply) {
        tell_text(rt, &reply[..count])?;
    }
    println!(rt; "")
}
