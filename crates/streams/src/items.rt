use crate::served::{stream_sends, streams_send};
use std::test::Fail;

// The latest reply is sent again, without `+`. Before the first there is none.
const AGAIN: &[(&str, &str)] = &[
    ("-", ""),
    ("---", ""),
    ("-$?#3f", "+$S05#b8"),
    ("$?#3f-", "+$S05#b8$S05#b8"),
    ("$?#3f-+-", "+$S05#b8$S05#b8$S05#b8"),
    ("$?#3f$D#44-", "+$S05#b8+$OK#9a$OK#9a"),
    ("$?#3f-$D#44", "+$S05#b8$S05#b8+$OK#9a"),
    // an empty reply and one that refuses are replies, too
    ("$?#3f$#00-", "+$S05#b8+$#00$#00"),
    ("$mzz#61-", "+$E22#a9$E22#a9"),
    // a wrong sum has none
    ("$?#3f$D#45-", "+$S05#b8-$S05#b8"),
    ("$D#45-", "-"),
    // the reply to the write is the latest
    ("$m0,2#fb$M0,1:ff#e0-", "+$0001#c1+$OK#9a$OK#9a"),
    // what was read is sent again, and not what could be read by now
    ("$M0,1:ff#e0$m0,2#fb-", "+$OK#9a+$ff01#2d$ff01#2d"),
];

// A frame with a wrong sum is answered by `-`, and what it asks for is not done.
const WRONG_SUMS: &[(&str, &str)] = &[
    ("$?#40", "-"),
    ("$?#zz", "-"),
    ("$#01$#0g$##00", "---"),
    ("$?#40$?#3f", "-+$S05#b8"),
    ("$M0,1:ff#e1$m0,2#fb", "-+$0001#c1"),
    ("$M0,1:ff#e0$m0,2#fb", "+$OK#9a+$ff01#2d"),
    ("$M0,1:ff#E0$m0,2#FB", "+$OK#9a+$ff01#2d"),
];

// Other bytes are answered by nothing, GDB's `+` and its interrupt among them.
const IGNORED: &[(&str, &str)] = &[
    ("", ""),
    ("+", ""),
    ("\x03", ""),
    ("abc #00 ++ 3f\0\n", ""),
    ("+$?#3f+\x03$?#3f+", "+$S05#b8+$S05#b8"),
    ("#$?#3f#3f", "+$S05#b8"),
];

const NEVER_ENDS: &[(&str, &str)] = &[
    ("$", ""),
    ("$?", ""),
    ("$?#", ""),
    ("$?#3", ""),
    ("$?#3f$?#3", "+$S05#b8"),
];

const EACH_REPLY: &[(&str, &str)] = &[
    ("$#00", "+$#00"),
    ("$qC#b4", "+$#00"),
    ("$vMustReplyEmpty#3a", "+$#00"),
    ("$Hg0#df", "+$OK#9a"),
    ("$qSupported#37", "+$PacketSize=1000#f1"),
    ("$m10,0#2a", "+$E23#aa"),
    ("$M10,2:00#a6", "+$E24#ab"),
    ("$mffffffffffffffff,2#2b", "+$E25#ac"),
    ("$Qaisle.depth:01#3d$M0,1:ff#e0", "+$OK#9a+$E26#ad"),
];

#[test]
fn short_streams(rt: HostRuntime) {
    streams_send(&rt, AGAIN);
    streams_send(&rt, WRONG_SUMS);
    streams_send(&rt, IGNORED);
    streams_send(&rt, NEVER_ENDS);
    streams_send(&rt, EACH_REPLY);
}

// The sizes of the pieces in which long streams come.
const LONG: &[usize] = &[1_000, 4_099];

// What comes first, how many letters `a`, what comes behind them, and what is sent.
const LONG_STREAMS: &[(&[u8], usize, &[u8], &[u8])] = &[
    // a `$` and 4,097 bytes without `#`: the `$` is used alone, and what is behind it is heard
    (b"$?#3f$", 4_097, b"", b"+$S05#b8"),
    (b"$?#3f$", 4_097, b"$?#3f", b"+$S05#b8+$S05#b8"),
    (b"$?#3f$", 4_096, b"-", b"+$S05#b8$S05#b8"),
    // the last of the 4,097 is a `#`, so it is a frame with a wrong sum
    (b"$?#3f$", 4_096, b"#", b"+$S05#b8"),
    (b"$?#3f$", 4_096, b"#$?", b"+$S05#b8-"),
    // the longest frame, whose sum is 4,096 times 61, and so 00
    (b"$", 4_096, b"#00$?#3f", b"+$#00+$S05#b8"),
    (b"$", 4_096, b"#01$?#3f", b"-+$S05#b8"),
    (b"$", 4_096, b"#0", b""),
];

#[test]
fn long_streams(rt: HostRuntime) -> Result<(), Fail> {
    for (first, letters, behind, sent) in LONG_STREAMS {
        let mut stream = Vec::new(rt.alloc());
        stream.extend_from_slice(first)?;
        for _ in 0..*letters {
            stream.push(b'a')?;
        }
        stream.extend_from_slice(behind)?;
        stream_sends(&rt, &stream, LONG, sent);
    }
    Ok(())
}
