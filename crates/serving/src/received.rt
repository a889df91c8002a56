ghost use Rattle.std.specs.Prelude.{◌≡◌, ◌≤◌, ◌<◌, [], drop, length, IfOk, IfErr, OnErr, ◌≢◌};
ghost use Rattle.std.specs.IoError.{error_kind};
ghost use Rattle.std.specs.Io.KnownBytes.{Keeps};

use packets::REPLY;
use std::io::{self, ErrorKind, Read};

// The bytes received that are not used yet, in front of a buffer for the longest frame.
#[derive(Drop)]
pub(crate) struct Received {
    bytes: [u8; REPLY],
    count: usize,
    ghost fits: { count ≤ 4100 },
}

impl Received {
    ghost use Rattle.serving.specs.Servers.{pending};
    ghost use Rattle.serving.specs.Reading.{Reads};

    pub(crate) fn nothing() -> Self
        ensures { pending result ≡ [] }
    {
        Received {
            bytes: [0; REPLY],
            count: 0,
        }
    }

    pub(crate) fn bytes(&self) -> &[u8]
        ensures { result.now ≡ pending self.now }
    {
        &self.bytes[..self.count]
    }

    // Reads a piece behind them, unless the input is at its end, and tells which. A read that is interrupted is tried again, up
    // to 2^64 - 1 times.
    pub(crate) fn read<R: Read>(&mut self, input: &mut R) -> io::Result<bool>
        requires { length (pending self.old) < 4100 }
        ensures ok { IfOk result (Reads (R.remaining input.old) (R.remaining input.new)
            (pending self.old) (pending self.new)) }
        ensures err { OnErr result (Keeps (R.remaining input.old) (R.remaining input.new)) }
        ensures retried { IfErr result (λ e. error_kind e ≢ ErrorKind.Interrupted) }
    {
        for _ in 0..u64::MAX {
            match input.read(&mut self.bytes[self.count..]) {
                Ok(n) => {
                    self.count += n;
                    return Ok(n > 0);
                }
                Err(e) if e.kind() == ErrorKind::Interrupted => {}
                Err(e) => return Err(e),
            }
        }
        Err(io::Error::from(ErrorKind::TimedOut))
    }

    // Lets go of those in front that are used.
    pub(crate) fn release(&mut self, used: usize)
        requires { used ≤ length (pending self.old) }
        ensures { pending self.new ≡ drop used (pending self.old) }
    {
        self.bytes.copy_within(used..self.count, 0);
        self.count -= used;
    }
}
