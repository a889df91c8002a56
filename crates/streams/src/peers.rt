use std::io::{self, ErrorKind, Read, Write};

// An input that gives so many bytes at a time, or fewer where there are no more. Before each piece it is interrupted once.
#[derive(Drop)]
pub(crate) struct Pieces<'a> {
    pub rest: &'a [u8],
    pub size: usize,
    pub interrupted: bool,
}

impl Read for Pieces<'_> {
    fn read(&mut self, buf: &mut [u8]) -> io::Result<usize> {
        self.interrupted = !self.interrupted;
        if self.interrupted {
            return Err(io::Error::from(ErrorKind::Interrupted));
        }
        let count = self.size.min(buf.len()).min(self.rest.len());
        let (piece, rest) = self.rest.split_at(count);
        buf[..count].copy_from_slice(piece);
        self.rest = rest;
        Ok(count)
    }
}

// An input that fails behind its bytes.
#[derive(Drop)]
pub(crate) struct Broken<'a> {
    pub rest: &'a [u8],
}

impl Read for Broken<'_> {
    fn read(&mut self, buf: &mut [u8]) -> io::Result<usize> {
        if self.rest.is_empty() {
            return Err(io::Error::from(ErrorKind::BrokenPipe));
        }
        self.rest.read(buf)
    }
}

// An output that takes one byte at a time, as many as it has room for.
#[derive(Drop)]
pub(crate) struct Narrow {
    pub bytes: [u8; 64],
    pub count: usize,
}

impl Write for Narrow {
    fn write(&mut self, buf: &[u8]) -> io::Result<usize> {
        let Some((b, _)) = buf.split_first() else {
            return Ok(0);
        };
        let Some(slot) = self.bytes.get_mut(self.count) else {
            return Ok(0);
        };
        *slot = *b;
        self.count += 1;
        Ok(1)
    }

    fn flush(&mut self) -> io::Result<()> {
        Ok(())
    }
}
