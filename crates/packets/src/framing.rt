ghost use Rattle.std.specs.Prelude.{◌≡◌, length, IfSome};
ghost use Rattle.packets.specs.Frames.{checksum, Frames};
ghost use Rattle.packets.specs.Streams.{HeardBack};

use crate::digits;

// How many bytes a payload has at most, and how large a buffer its frame fits in.
pub const PAYLOAD: usize = 4_096;

pub const REPLY: usize = PAYLOAD + 4;

// The sum that a payload's frame carries.
pub(crate) fn checksum(payload: &[u8]) -> u8
    ensures { result ≡ checksum payload.now }
{
    payload.iter().fold(0, |sum, b| sum.wrapping_add(*b))
}

// Copies a payload, and gives its sum in the same pass.
fn copy_summed(payload: &[u8], place: &mut [u8]) -> u8
    requires { length place.old ≡ length payload.now }
    ensures copied { place.new ≡ payload.now }
    ensures sum { result ≡ checksum payload.now }
{
    let mut sum: u8 = 0;
    for (n, b) in payload.iter().enumerate() {
        place[n] = *b;
        sum = sum.wrapping_add(*b);
    }
    sum
}

// Writes a payload's frame: how many bytes it has, or none where the payload is too long.
pub fn frame(payload: &[u8], reply: &mut [u8; REPLY]) -> Option<usize>
    ensures is { Frames payload.now reply.old reply.new result }
    ensures heard_back { IfSome result (HeardBack payload.now reply.new) }
{
    if payload.len() > PAYLOAD {
        return None;
    }
    let end = payload.len() + 1;
    reply[0] = b'$';
    let sum = copy_summed(payload, &mut reply[1..end]);
    let [high, low] = digits::of::<2>(sum as u64);
    reply[end..end + 3].copy_from_slice(&[b'#', high, low]);
    Some(end + 3)
}
