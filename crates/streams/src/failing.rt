use crate::peers::{Broken, Narrow};
use crate::served::{counting, outcome};
use spaces::Space;
use std::cell::Cell;
use std::io::{self, ErrorKind, Read, Write};

// An input that breaks: what came before is served, and the pile is given back as it is then.
#[test]
fn a_broken_input(rt: HostRuntime) {
    let input = Broken {
        rest: b"$M0,1:ff#e0-$M1,1:ff#",
    };
    let mut output = Vec::new(rt.alloc());
    let (space, result) = outcome(counting(16), false, input, &mut output);
    assert!(rt; result.is_err_and(|e| e.kind() == ErrorKind::BrokenPipe));
    assert!(rt; output.as_slice() == b"+$OK#9a$OK#9a".as_slice());
    assert!(rt; space.byte(0) == Ok(0xff) && space.byte(1) == Ok(1));
}

// Nine times the reply to `?` has 72 bytes.
const NINE: &[u8] = b"$?#3f$?#3f$?#3f$?#3f$?#3f$?#3f$?#3f$?#3f$?#3f";

const EIGHT_SENT: &[u8; 64] = b"+$S05#b8+$S05#b8+$S05#b8+$S05#b8+$S05#b8+$S05#b8+$S05#b8+$S05#b8";

// An output that takes a byte at a time, and is full before all is sent.
#[test]
fn a_full_output(rt: HostRuntime) {
    let mut output = Narrow {
        bytes: [0; 64],
        count: 0,
    };
    let (_, result) = outcome(counting(16), false, NINE, &mut output);
    assert!(rt; result.is_err_and(|e| e.kind() == ErrorKind::WriteZero));
    assert!(rt; output.bytes == *EIGHT_SENT);
}

#[test]
fn an_output_with_room(rt: HostRuntime) {
    let mut bytes = [b'.'; 66];
    let mut output = bytes.as_mut_slice();
    let (_, result) = outcome(counting(16), false, &NINE[..40], &mut output);
    assert!(rt; result.is_ok());
    assert!(rt; bytes.starts_with(EIGHT_SENT) && bytes.ends_with(b".."));
}

// An output that counts its bytes, and tells how many have been written out.
#[derive(Drop)]
struct Told<'c> {
    count: usize,
    out: &'c Cell<usize>,
}

impl Write for Told<'_> {
    fn write(&mut self, buf: &[u8]) -> io::Result<usize> {
        self.count = self.count.saturating_add(buf.len());
        Ok(buf.len())
    }

    fn flush(&mut self) -> io::Result<()> {
        self.out.set(self.count);
        Ok(())
    }
}

// An input as GDB's: it goes on once so many bytes have come back, and would wait for them.
#[derive(Drop)]
struct Patient<'c> {
    steps: &'c [(usize, &'c str)],
    next: usize,
    out: &'c Cell<usize>,
}

impl Read for Patient<'_> {
    fn read(&mut self, buf: &mut [u8]) -> io::Result<usize> {
        let Some((due, text)) = self.steps.get(self.next) else {
            return Ok(0);
        };
        if self.out.get() != *due {
            return Err(io::Error::from(ErrorKind::WouldBlock));
        }
        self.next = self.next.saturating_add(1);
        let mut piece = text.as_bytes();
        piece.read(buf)
    }
}

// Whatever is due is sent before more is read.
#[test]
fn a_patient_input(rt: HostRuntime) {
    let out = Cell::new(0);
    let steps = [
        (0, "+$?"),
        (0, "#3f"),
        // `+$S05#b8`
        (8, "+"),
        (8, "-"),
        // and `$S05#b8`
        (15, "$?#40"),
        // and `-`
        (16, "$D#44$m0,1"),
        // and `+$OK#9a`
        (23, "#fa"),
        // and `+$00#60`
        (30, "+"),
        (30, ""),
    ];
    let input = Patient {
        steps: &steps,
        next: 0,
        out: &out,
    };
    let mut output = Told {
        count: 0,
        out: &out,
    };
    let (_, result) = outcome(counting(16), false, input, &mut output);
    assert!(rt; result.is_ok());
    assert!(rt; out.get() == 30);
}
