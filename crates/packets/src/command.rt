ghost use Rattle.std.specs.Prelude.{◌≡◌};
ghost use Rattle.packets.specs.Commands.{meant_by};
ghost use Rattle.packets.specs.Asking.{asked};
ghost use Rattle.packets.specs.Forms.{Parses};

use crate::asking::{query, read, setting, write};
use crate::command_refusal::CommandRefusal;

// What a payload asks for.
#[derive(Clone, Copy, Debug, PartialEq, Eq)]
pub enum Command<'a> {
    // `?`: why the target halted.
    WhyHalted,
    // `m`: the bytes of so many addresses.
    Read { first: u64, count: u64 },
    // `M`: bytes are patched, each by two digits.
    Write { first: u64, digits: &'a [u8] },
    // `g`: the registers.
    Registers,
    // `D`: the debugger detaches.
    Detach,
    // `H`: a thread is chosen.
    Thread,
    // `qSupported`: what is supported.
    Supported,
    // `Qaisle.depth:`: the depth at which bytes are patched.
    Depth(u8),
    // `qaisle.fault`: the last fault.
    LastFault,
    // Anything else.
    Unknown,
}

// What a payload asks for, by its first character and then by its name.
fn asked(payload: &[u8]) -> Result<Command<'_>, CommandRefusal>
    ensures { meant_by result ≡ asked payload.now }
{
    let Some((first, rest)) = payload.split_first() else {
        return Ok(Command::Unknown);
    };
    match char::from(*first) {
        '?' if rest.is_empty() => Ok(Command::WhyHalted),
        'm' => read(rest),
        'M' => write(rest),
        'g' if rest.is_empty() => Ok(Command::Registers),
        'D' if rest.is_empty() => Ok(Command::Detach),
        'H' => Ok(Command::Thread),
        'q' => query(payload),
        'Q' => setting(payload),
        _ => Ok(Command::Unknown),
    }
}

impl<'a> Command<'a> {
    // What a payload asks for, or why it is refused.
    pub fn parse(payload: &'a [u8]) -> Result<Command<'a>, CommandRefusal>
        ensures is { meant_by result ≡ asked payload.now }
        ensures in_words { Parses payload.now (meant_by result) }
    {
        asked(payload)
    }
}
