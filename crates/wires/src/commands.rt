use numbers::Numbered;
use packets::Command;
use std::process::Abort;

// Payloads with a bar between each and the next, and what they all ask for, or the number of their refusal.
type Answered<'a> = (&'a str, Result<Command<'a>, u8>);

fn answer(rt: &impl Abort, payloads: &str, expected: Result<Command, u8>) {
    for payload in payloads.split('|') {
        let answer = Command::parse(payload.as_bytes()).map_err(|refusal| refusal.number());
        assert!(rt; answer == expected, "{payload}");
    }
}

fn answers(rt: &impl Abort, cases: &[Answered]) {
    for (payloads, expected) in cases {
        answer(rt, payloads, *expected);
    }
}

// Reads, with the first address and how many.
fn ask_to_read(rt: &impl Abort, cases: &[(&str, u64, u64)]) {
    for (payloads, first, count) in cases {
        let read = Command::Read {
            first: *first,
            count: *count,
        };
        answer(rt, payloads, Ok(read));
    }
}

// Writes, with the first address and the digits.
fn ask_to_write(rt: &impl Abort, cases: &[(&str, u64, &str)]) {
    for (payloads, first, digits) in cases {
        let write = Command::Write {
            first: *first,
            digits: digits.as_bytes(),
        };
        answer(rt, payloads, Ok(write));
    }
}

const COMMANDS: &[Answered<'static>] = &[
    ("?", Ok(Command::WhyHalted)),
    ("g", Ok(Command::Registers)),
    ("D", Ok(Command::Detach)),
    ("H|Hg0|Hc-1", Ok(Command::Thread)),
    ("qSupported|qSupported:swbreak+", Ok(Command::Supported)),
    ("qaisle.fault", Ok(Command::LastFault)),
    ("Qaisle.depth:00", Ok(Command::Depth(0))),
    ("Qaisle.depth:0a|Qaisle.depth:0A", Ok(Command::Depth(10))),
    ("Qaisle.depth:a0|Qaisle.depth:A0", Ok(Command::Depth(160))),
    ("Qaisle.depth:ff", Ok(Command::Depth(255))),
];

const READS: &[(&str, u64, u64)] = &[
    ("m0,1|m0000000000000000,0000000000000001", 0, 1),
    ("mabc,1f|mABC,1F|m0aBc,01f", 0xabc, 31),
    // these end at the last address
    ("mffffffffffffffff,1", u64::MAX, 1),
    ("mFFFFFFFFFFFFFFF0,10", u64::MAX - 15, 16),
    ("m1,ffffffffffffffff", 1, u64::MAX),
    ("m8000000000000000,8000000000000000", 1 << 63, 1 << 63),
    // and this one before it
    ("m0,ffffffffffffffff", 0, u64::MAX),
];

const WRITES: &[(&str, u64, &str)] = &[
    ("M0,1:00", 0, "00"),
    ("M10,2:aB3f", 16, "aB3f"),
    // these end at the last address
    ("Mffffffffffffffff,1:5A", u64::MAX, "5A"),
    ("Mfffffffffffffffe,2:0000", u64::MAX - 1, "0000"),
];

const OTHERS: &[Answered<'static>] = &[
    // names that are near the known ones, and names of GDB's that are not known here; the first is empty
    (
        "|?x|??|gg|g |D;1|G|d|h|X0,1:|z0,0,1|s|c",
        Ok(Command::Unknown),
    ),
    ("k|!|R00|vMustReplyEmpty|vCont?", Ok(Command::Unknown)),
    (
        "q|qC|qSupporte|qsupported|qaisle.faul",
        Ok(Command::Unknown),
    ),
    ("qaisle.faults|qaisle.depth:00", Ok(Command::Unknown)),
    ("Q|QStartNoAckMode|QSupported", Ok(Command::Unknown)),
    ("Qaisle.depth|Qaisle.depth;00", Ok(Command::Unknown)),
    ("Qaisle.fault", Ok(Command::Unknown)),
    ("m|m,|m0|m0,|m,1|mzz|mg,1|m0,g|m0;1", Err(0x22)),
    ("m0,1,1|m0,1:|m 0,1|m0, 1|m-1,1|m0x0,1", Err(0x22)),
    ("M|M0,1|M,:|M0:00|M:00|M0:0,1|M0,1:0g", Err(0x22)),
    ("M0,1:g0|M0,1:00:|M0,1:00,00|M0,1: 00", Err(0x22)),
    ("M0,1:00 ", Err(0x22)),
    ("Qaisle.depth:|Qaisle.depth:0", Err(0x22)),
    ("Qaisle.depth:000", Err(0x22)),
    ("Qaisle.depth:0g|Qaisle.depth:g0", Err(0x22)),
    ("Qaisle.depth:+1", Err(0x22)),
    // 17 digits
    ("m00000000000000000,1", Err(0x22)),
    ("m0,00000000000000001", Err(0x22)),
    ("M00000000000000001,1:00", Err(0x22)),
    ("M0,00000000000000001:00", Err(0x22)),
    // it comes before no addresses, digits that are not two for each, and an end past the last address
    ("mzz,0|m00000000000000000,0|M0,0:zz", Err(0x22)),
    ("M0,0:g|M0,2:0g|M0,2:z", Err(0x22)),
    ("mffffffffffffffff,2x", Err(0x22)),
    ("Mffffffffffffffff,2:zzzz", Err(0x22)),
    ("Mffffffffffffffff,2:z", Err(0x22)),
    ("m10,0|m0,0000000000000000", Err(0x23)),
    ("mffffffffffffffff,0|M0,0:", Err(0x23)),
    // nor as many digits
    ("M0,0:0|M0,0:00|Mffffffffffffffff,0:00", Err(0x23)),
    ("M10,2:00|M0,1:|M0,1:0|M0,1:000|M0,2:000", Err(0x24)),
    ("M0,2:000000|M0,ffffffffffffffff:00", Err(0x24)),
    // twice as many as these addresses are 2^64, and 2^64 + 2
    ("M0,8000000000000000:", Err(0x24)),
    ("M0,8000000000000001:00", Err(0x24)),
    // it comes before an end past the last address
    ("Mffffffffffffffff,2:00", Err(0x24)),
    ("M8000000000000000,8000000000000001:00", Err(0x24)),
    ("Mffffffffffffffff,ffffffffffffffff:0000", Err(0x24)),
    ("mffffffffffffffff,2|mfffffffffffffffe,3", Err(0x25)),
    ("mffffffffffffffff,ffffffffffffffff", Err(0x25)),
    ("m2,ffffffffffffffff", Err(0x25)),
    ("m8000000000000000,8000000000000001", Err(0x25)),
    ("Mffffffffffffffff,2:0000", Err(0x25)),
    ("Mfffffffffffffffe,3:000000", Err(0x25)),
];

#[test]
fn payloads_ask_for_commands(rt: HostRuntime) {
    answers(&rt, COMMANDS);
    ask_to_read(&rt, READS);
    ask_to_write(&rt, WRITES);
    answers(&rt, OTHERS);
}

// What GDB 13.1 sent, and what it meant by that.
const OF_GDB: &[Answered<'static>] = &[
    (
        "qSupported:multiprocess+;swbreak+;hwbreak+;qRelocInsn+;fork-events+;vfork-events+;exec-events+;\
         vContSupported+;QThreadEvents+;no-resumed+;memory-tagging+;xmlRegisters=i386",
        Ok(Command::Supported),
    ),
    ("Hg0|Hc-1|Hc0", Ok(Command::Thread)),
    ("?", Ok(Command::WhyHalted)),
    ("g", Ok(Command::Registers)),
    ("D", Ok(Command::Detach)),
    (
        "vMustReplyEmpty|qTStatus|qfThreadInfo",
        Ok(Command::Unknown),
    ),
    ("qL1200000000000000000|qC|qAttached", Ok(Command::Unknown)),
    ("X4008,0:|vCont?|s|p18", Ok(Command::Unknown)),
];

const READS_OF_GDB: &[(&str, u64, u64)] = &[
    ("m0,9", 0, 9),
    ("m1000,800", 4_096, 2_048),
    ("mffffffff81000000,1", 0xffff_ffff_8100_0000, 1),
];

const WRITES_OF_GDB: &[(&str, u64, &str)] = &[("M4010,4:78563412", 0x4010, "78563412")];

#[test]
fn payloads_of_gdb(rt: HostRuntime) {
    answers(&rt, OF_GDB);
    ask_to_read(&rt, READS_OF_GDB);
    ask_to_write(&rt, WRITES_OF_GDB);
}
