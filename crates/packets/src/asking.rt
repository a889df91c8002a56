// Commands with arguments, by what stands behind `m` or `M`, and names that begin with `q` or `Q`.

ghost use Rattle.std.specs.Prelude.{◌≡◌, ◌+◌, ◌^◌, if◌then◌else◌, nat_lt, Ok, Err};
ghost use Rattle.packets.specs.declared.command_refusal.CommandRefusal.TheVariants.{PastTheEnd};
ghost use Rattle.packets.specs.Commands.{meant_by};
ghost use Rattle.packets.specs.Asking.{addresses, read_of, write_of, all_digits, query, setting};

use crate::command::Command;
use crate::command_refusal::CommandRefusal;
use crate::digits::{byte, number};
use crate::split::split_once;

// An address and a number of addresses, with a comma between.
fn addresses(text: &[u8]) -> Option<(u64, u64)>
    ensures { result ≡ addresses text.now }
{
    let (first, count) = split_once(text, b',')?;
    Some((number(first)?, number(count)?))
}

fn all_digits(text: &[u8]) -> bool
    ensures { result ≡ all_digits text.now }
{
    text.iter().all(|c| c.is_ascii_hexdigit())
}

// Refused where the last address is above 2^64 - 1.
fn within(first: u64, count: u64) -> Result<(), CommandRefusal>
    ensures { result ≡ (if nat_lt (2 ^ 64) (first + count) then Err PastTheEnd else Ok tt) }
{
    if first as u128 + count as u128 > 1 << 64 {
        return Err(CommandRefusal::PastTheEnd);
    }
    Ok(())
}

// `A,L`
pub(crate) fn read(text: &[u8]) -> Result<Command<'_>, CommandRefusal>
    ensures { meant_by result ≡ read_of text.now }
{
    let (first, count) = addresses(text).ok_or(CommandRefusal::BadForm)?;
    if count == 0 {
        return Err(CommandRefusal::NoAddresses);
    }
    within(first, count)?;
    Ok(Command::Read { first, count })
}

// `A,L:` and digits
pub(crate) fn write(text: &[u8]) -> Result<Command<'_>, CommandRefusal>
    ensures { meant_by result ≡ write_of text.now }
{
    let (place, digits) = split_once(text, b':').ok_or(CommandRefusal::BadForm)?;
    let (first, count) = addresses(place).ok_or(CommandRefusal::BadForm)?;
    if !all_digits(digits) {
        return Err(CommandRefusal::BadForm);
    }
    if count == 0 {
        return Err(CommandRefusal::NoAddresses);
    }
    if digits.len() as u128 != 2 * count as u128 {
        return Err(CommandRefusal::WrongDigits);
    }
    within(first, count)?;
    Ok(Command::Write { first, digits })
}

// A name that begins with `q`.
pub(crate) fn query(payload: &[u8]) -> Result<Command<'_>, CommandRefusal>
    ensures { meant_by result ≡ query payload.now }
{
    if payload == b"qaisle.fault".as_slice() {
        return Ok(Command::LastFault);
    }
    if payload.starts_with(b"qSupported") {
        return Ok(Command::Supported);
    }
    Ok(Command::Unknown)
}

// A name that begins with `Q`.
pub(crate) fn setting(payload: &[u8]) -> Result<Command<'_>, CommandRefusal>
    ensures { meant_by result ≡ setting payload.now }
{
    let Some(digits) = payload.strip_prefix(b"Qaisle.depth:") else {
        return Ok(Command::Unknown);
    };
    let digits = <[u8; 2]>::try_from(digits)
        .ok()
        .ok_or(CommandRefusal::BadForm)?;
    Ok(Command::Depth(byte(digits).ok_or(CommandRefusal::BadForm)?))
}
