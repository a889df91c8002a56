ghost use Rattle.std.specs.Prelude.{◌≡◌, ◌≤◌, [], ◌∷◌, length, Some};

use std::io::{self, Write};

// A writer into memory that is lent: what is sent lies in front of it. The library's own for a slice forgets what was written.
#[derive(Drop)]
pub(crate) struct Sent<'a> {
    room: &'a mut [u8],
    count: usize,
    ghost fits: { count ≤ length room.now },
}

impl<'a> Sent<'a> {
    ghost use Rattle.exports.specs.Sending.{held};

    pub(crate) fn new(room: &'a mut [u8]) -> Self
        ensures { held result ≡ room.entry.ghost_name ∷ length room.old ∷ [] }
    {
        Sent { room, count: 0 }
    }

    // How many bytes were sent.
    pub(crate) fn count(&self) -> usize
        ensures { result ≡ self.now.count }
    {
        self.count
    }
}

impl Write for Sent<'_> {
    ghost use Rattle.exports.specs.Sending.{held};

    ghost contents = { λ s. Some (held s) };

    fn write(&mut self, buf: &[u8]) -> io::Result<usize> {
        let n = buf.len().min(self.room.len() - self.count);
        let end = self.count + n;
        self.room[self.count..end].copy_from_slice(&buf[..n]);
        self.count = end;
        Ok(n)
    }

    fn flush(&mut self) -> io::Result<()> {
        Ok(())
    }
}
