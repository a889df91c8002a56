use packets::{Command, Item, REPLY, frame, hear};

// Frames as GDB's logs and manual have them, and some whose sums are the least and the greatest.
const FRAMES: &[(&[u8], &[u8])] = &[
    (b"", b"$#00"),
    (b"?", b"$?#3f"),
    (b"g", b"$g#67"),
    (b"OK", b"$OK#9a"),
    (b"E01", b"$E01#a6"),
    (b"S05", b"$S05#b8"),
    (b"Hg0", b"$Hg0#df"),
    (b"Hc-1", b"$Hc-1#09"),
    (b"vCont?", b"$vCont?#49"),
    (b"vMustReplyEmpty", b"$vMustReplyEmpty#3a"),
    (b"QStartNoAckMode", b"$QStartNoAckMode#b0"),
    (b"qfThreadInfo", b"$qfThreadInfo#bb"),
    (b"a$b", b"$a$b#e7"),
    (b"a#b", b"$a#b#e6"),
    (b"\x00", b"$\x00#00"),
    (b"\x0f", b"$\x0f#0f"),
    (b"\xff", b"$\xff#ff"),
    (b"\x80\x80", b"$\x80\x80#00"),
];

#[test]
fn payloads_are_framed(rt: HostRuntime) {
    for (payload, framed) in FRAMES {
        let mut expected = [b'.'; REPLY];
        for (slot, b) in expected.iter_mut().zip(*framed) {
            *slot = *b;
        }
        let mut reply = [b'.'; REPLY];
        assert!(rt; frame(payload, &mut reply) == Some(framed.len()));
        assert!(rt; reply == expected, "{payload:?}");
    }
}

// What GDB 13.1 sent behind `$`, with a bar between each frame and the next: when it connected to a stub, read, patched a byte,
// asked for the last fault and detached.
const FRAMES_OF_GDB: &[&str] = &[
    "vMustReplyEmpty#3a|Hg0#df|qTStatus#49",
    "?#3f|qfThreadInfo#bb|Hc-1#09|qC#b4",
    "qL1200000000000000000#50|qAttached#8f",
    "g#67|m0,1#fa|m0,9#02|mffc,1#f9",
    "m1000,1#8b|X1000,0:#af|M1000,1:5a#3b",
    "qaisle.fault#c9|Qaisle.depth:02#3e|D#44",
    // what it can do itself, patches of its own making, a step, a register, and reads as long as a dump to a file needs
    "qSupported:multiprocess+;swbreak+;hwbreak+;qRelocInsn+;fork-events+;vfork-events+;exec-events+;\
     vContSupported+;QThreadEvents+;no-resumed+;memory-tagging+;xmlRegisters=i386#77",
    "X4008,0:#ba|M4008,1:03#13|M4010,4:78563412#50",
    "vCont?#49|Hc0#db|s#73|p18#d9",
    "mffffffff81000000,1#83|m8786858483828180,9#2e",
    "m0,800#61|m800,800#c9|m1000,800#f2",
    // a read that texts on the protocol show; the sum of its bytes is 25a
    "m4015bc,2#5a",
];

// The same is written, and heard.
#[test]
fn frames_of_gdb(rt: HostRuntime) {
    for line in FRAMES_OF_GDB {
        for text in line.split('|') {
            let (payload, _) = text.split_once('#').unwrap_or(("", text));
            let payload = payload.as_bytes();
            let mut reply = [b'.'; REPLY];
            let length = frame(payload, &mut reply).unwrap_or(0);
            let (front, _) = reply.split_at(length);
            assert!(rt; front.strip_prefix(b"$") == Some(text.as_bytes()), "{text}");
            assert!(rt; hear(&reply) == Item::Packet { payload }, "{text}");
        }
    }
}

// The longest write that GDB 13.1 sent to a stub with PacketSize=1000: 7f0 zeros at 10000, of a file of zeros.
#[test]
fn the_longest_write_of_gdb(rt: HostRuntime) {
    let mut received = [b'0'; 4_079];
    received[..12].copy_from_slice(b"$M10000,7f0:");
    received[4_076..].copy_from_slice(b"#71");
    let payload = &received[1..4_076];
    assert!(rt; hear(&received) == Item::Packet { payload });
    let write = Command::Write {
        first: 0x1_0000,
        digits: &payload[11..],
    };
    assert!(rt; Command::parse(payload) == Ok(write));
}

#[test]
fn long_payloads(rt: HostRuntime) {
    let mut letters = [b'a'; 4_097];
    letters[0] = b'b';
    let mut reply = [b'.'; REPLY];
    assert!(rt; frame(&letters, &mut reply).is_none());
    assert!(rt; reply == [b'.'; REPLY]);
    // a b and 4,094 letters a have the sum a0, and one a more adds 61
    for (count, end) in [(4_095, b"#a0."), (4_096, b"a#01")] {
        let payload = &letters[..count];
        let mut expected = [b'a'; REPLY];
        expected[..2].copy_from_slice(b"$b");
        expected[4_096..].copy_from_slice(end);
        assert!(rt; frame(payload, &mut reply) == Some(count + 4));
        assert!(rt; reply == expected);
        assert!(rt; hear(&reply) == Item::Packet { payload });
    }
}
