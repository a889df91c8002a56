ghost use Rattle.std.specs.Prelude.{◌≡◌};
ghost use Rattle.serving.specs.Registers.{registers, MakesPcKnown, OnlyForG};

use packets::{Command, REPLY, frame};
use sessions::REGISTERS;

// The first digit of rip among the registers, and the first behind it.
const RIP: usize = 256;

const EFLAGS: usize = RIP + 16;

// The registers of which rip alone is known. It is 0.
fn registers() -> [u8; REGISTERS]
    ensures { result ≡ registers }
{
    let mut text = [b'x'; REGISTERS];
    text[RIP..EFLAGS].fill(b'0');
    text
}

// GDB 13 gives up on registers of which the program counter is not known. So the reply to a payload that asks for them is
// replaced by one in which it is. Any other reply stays as it is.
pub fn with_known_pc(payload: &[u8], reply: &mut [u8; REPLY], count: usize) -> usize
    ensures is { MakesPcKnown payload.now reply.old reply.new count result }
    ensures in_words { OnlyForG payload.now reply.old reply.new count result }
{
    match Command::parse(payload) {
        Ok(Command::Registers) => frame(&registers(), reply).unwrap_or(count),
        _ => count,
    }
}
