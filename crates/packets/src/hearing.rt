ghost use Rattle.std.specs.Prelude.{◌≡◌};
ghost use Rattle.packets.specs.Items.{meant};
ghost use Rattle.packets.specs.Hearing.{closed, opened, heard};
ghost use Rattle.packets.specs.Streams.{Hears};

use crate::digits::byte;
use crate::framing::{PAYLOAD, REPLY, checksum};
use crate::item::Item;
use crate::split::split_once;

// A frame, by its payload and what there is behind its `#`.
fn closed<'a>(payload: &'a [u8], rest: &[u8]) -> Item<'a>
    ensures { meant result ≡ closed payload.now rest.now }
{
    let Some((digits, _)) = rest.split_first_chunk::<2>() else {
        return Item::Unfinished;
    };
    if byte(*digits) == Some(checksum(payload)) {
        Item::Packet { payload }
    } else {
        Item::WrongSum {
            used: payload.len() + 4,
        }
    }
}

// A frame, by what there is behind its `$`.
fn opened(bytes: &[u8]) -> Item<'_>
    ensures { meant result ≡ opened bytes.now }
{
    match split_once(bytes, b'#') {
        Some((payload, rest)) if payload.len() <= PAYLOAD => closed(payload, rest),
        None if bytes.len() <= PAYLOAD => Item::Unfinished,
        _ => Item::NoEnd,
    }
}

// What is heard first, of bytes that are no more than the longest frame.
fn heard(received: &[u8]) -> Item<'_>
    ensures { meant result ≡ heard received.now }
{
    match received.split_first() {
        Some((b'$', bytes)) => opened(bytes),
        Some((b'-', _)) => Item::Resend,
        Some(_) => Item::Ignored,
        None => Item::Unfinished,
    }
}

// What is heard first in the bytes received. The longest frame has 4,100, so no byte behind these matters.
pub fn hear(received: &[u8]) -> Item<'_>
    ensures is { meant result ≡ heard received.now }
    ensures in_words { Hears received.now (meant result) }
{
    heard(&received[..received.len().min(REPLY)])
}
