use crate::served::{counting, sent};
use packets::REPLY;
use serving::with_known_pc;
use std::process::Abort;
use std::test::Fail;

// 328 letters in a frame, of which 256 to 271 are 0. The sum is 312 times 78 and 16 times 30, and so 40.
pub(crate) fn known_frame() -> [u8; 332] {
    let mut frame = [b'x'; 332];
    frame[0] = b'$';
    frame[257..273].fill(b'0');
    frame[329..].copy_from_slice(b"#40");
    frame
}

// The same with no letter that is 0. The sum is 328 times 78, and so c0.
fn unknown_frame() -> [u8; 332] {
    let mut frame = [b'x'; 332];
    frame[0] = b'$';
    frame[329..].copy_from_slice(b"#c0");
    frame
}

// The registers in a reply to `g` and the bytes of each, as GDB 13.1 has them of i386:x86-64, in this order and with no gap
// (`maint print remote-registers`). What comes behind them may be left out.
const REGISTERS: &[(&str, usize)] = &[
    ("rax", 8),
    ("rbx", 8),
    ("rcx", 8),
    ("rdx", 8),
    ("rsi", 8),
    ("rdi", 8),
    ("rbp", 8),
    ("rsp", 8),
    ("r8", 8),
    ("r9", 8),
    ("r10", 8),
    ("r11", 8),
    ("r12", 8),
    ("r13", 8),
    ("r14", 8),
    ("r15", 8),
    ("rip", 8),
    ("eflags", 4),
    ("cs", 4),
    ("ss", 4),
    ("ds", 4),
    ("es", 4),
    ("fs", 4),
    ("gs", 4),
];

// Two digits a byte: all of rip are 0, all others are not known. What is behind the reply in its buffer is kept.
#[test]
fn registers_in_their_order(rt: HostRuntime) -> Result<(), Fail> {
    let mut digits = Vec::new(rt.alloc());
    for (name, bytes) in REGISTERS {
        let digit = if *name == "rip" { b"00" } else { b"xx" };
        for _ in 0..*bytes {
            digits.extend_from_slice(digit)?;
        }
    }
    let mut expected = [b'.'; REPLY];
    expected[..332].copy_from_slice(&known_frame());
    assert!(rt; &expected[1..329] == digits.as_slice());
    let mut reply = [b'.'; REPLY];
    assert!(rt; with_known_pc(b"g", &mut reply, 7) == 332);
    assert!(rt; reply == expected);
    Ok(())
}

#[test]
fn other_buffers(rt: HostRuntime) {
    for payload in ["", "?", "gg", "G", "p10", "mzz"] {
        let mut reply = [b'.'; REPLY];
        assert!(rt; with_known_pc(payload.as_bytes(), &mut reply, 7) == 7);
        assert!(rt; reply == [b'.'; REPLY]);
    }
}

// A stream and what is sent for it: `+`, a frame, and more.
fn sends(
    rt: &(impl Abort + AllocGlobal),
    known_pc: bool,
    stream: &[u8],
    frame: &[u8],
    more: &[u8],
) {
    let output = sent(rt, counting(16), known_pc, stream);
    let rest = output
        .strip_prefix(b"+")
        .and_then(|sent| sent.strip_prefix(frame));
    assert!(rt; rest == Some(more), "{output:?}");
}

#[test]
fn registers_in_streams(rt: HostRuntime) {
    let known = known_frame();
    let unknown = unknown_frame();
    sends(&rt, true, b"$g#67", &known, b"");
    sends(&rt, false, b"$g#67", &unknown, b"");
    // the latest reply is the one that was sent
    sends(&rt, true, b"$g#67-", &known, &known);
    sends(&rt, false, b"$g#67-", &unknown, &unknown);
    sends(&rt, true, b"$g#67$?#3f-", &known, b"+$S05#b8$S05#b8");
    // no other reply is changed
    sends(&rt, true, b"$?#3f$gg#ce", b"$S05#b8", b"+$#00");
    sends(&rt, true, b"$m0,2#fb$D#44", b"$0001#c1", b"+$OK#9a");
    sends(&rt, true, b"$mzz#61$g#66", b"$E22#a9", b"-");
}
