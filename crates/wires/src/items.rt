use numbers::Numbered;
use packets::{Item, hear};
use std::alloc::AllocError;
use std::process::Abort;
use std::test::Fail;

// What is said of an item: how many bytes it uses, the number of its refusal, the acknowledgment that is due.
type Said = (usize, Option<u8>, Option<u8>);

const NOTHING: Said = (0, None, None);

const ONE: Said = (1, None, None);

const NO_END: Said = (1, Some(0x21), None);

fn wrong_sum(used: usize) -> Said {
    (used, Some(0x20), Some(b'-'))
}

fn good(used: usize) -> Said {
    (used, None, Some(b'+'))
}

fn hears(rt: &impl Abort, received: &[u8], item: Item, said: Said) {
    let heard = hear(received);
    let refusal = heard.refusal().map(|refusal| refusal.number());
    let says = (heard.used(), refusal, heard.due());
    assert!(rt; heard == item && says == said, "{received:?}");
}

#[test]
fn single_bytes(rt: HostRuntime) {
    hears(&rt, b"", Item::Unfinished, NOTHING);
    for c in 0..=255 {
        let (item, said) = match c {
            b'$' => (Item::Unfinished, NOTHING),
            b'-' => (Item::Resend, ONE),
            _ => (Item::Ignored, ONE),
        };
        hears(&rt, &[c], item, said);
        // what comes behind it changes nothing; behind a `$` it is a payload
        hears(&rt, &[c, b'-', b'$'], item, said);
    }
}

const GOOD: &[(&str, &str, usize)] = &[
    ("$#00", "", 4),
    ("$?#3f", "?", 5),
    ("$?#3F", "?", 5),
    ("$j#6A", "j", 5),
    ("$vMustReplyEmpty#3a", "vMustReplyEmpty", 19),
    // a `$` within
    ("$$#24", "$", 5),
    ("$a$b#e7", "a$b", 7),
    // more behind
    ("$#00#00", "", 4),
    ("$g#67$?#3f", "g", 5),
    ("$g#670", "g", 5),
];

#[test]
fn good_frames(rt: HostRuntime) {
    for (received, payload, used) in GOOD {
        let received = received.as_bytes();
        let payload = payload.as_bytes();
        hears(&rt, received, Item::Packet { payload }, good(*used));
        // before its last byte it is unfinished
        for cut in 0..received.len().min(*used) {
            hears(&rt, &received[..cut], Item::Unfinished, NOTHING);
        }
    }
}

const WRONG: &[(&str, usize)] = &[
    ("$?#40", 5),
    ("$?#3e", 5),
    ("$?#f3", 5),
    ("$#01", 4),
    ("$##00", 4),
    ("$g##67", 5),
    ("$a#b#e6", 5),
    ("$j#6g", 5),
    ("$j#g6", 5),
    ("$j#+a", 5),
    ("$\n#+a", 5),
    ("$j# 6a", 5),
    ("$$?#3f", 6),
    ("$?#40$?#3f", 5),
];

const UNFINISHED: &[&str] = &["$##", "$?#4", "$?#z", "$-", "$+$"];

#[test]
fn wrong_frames(rt: HostRuntime) {
    for (received, used) in WRONG {
        let item = Item::WrongSum { used: *used };
        hears(&rt, received.as_bytes(), item, wrong_sum(*used));
    }
    for received in UNFINISHED {
        hears(&rt, received.as_bytes(), Item::Unfinished, NOTHING);
    }
}

// The sum of `j` is 6a, whatever the case of its digits, and no other two bytes will do.
#[test]
fn sums(rt: HostRuntime) {
    for high in 0..=255 {
        for low in 0..=255 {
            let due = match (high, low) {
                (b'6', b'a' | b'A') => b'+',
                _ => b'-',
            };
            let received = [b'$', b'j', b'#', high, low];
            assert!(rt; hear(&received).due() == Some(due), "{high} and {low}");
        }
    }
}

// A `$` and 4,096 letters, whose sum is 4,096 times 0x61, and so 00, with this behind them.
fn hears_long(
    rt: &(impl Abort + AllocGlobal),
    end: &str,
    item: Item,
    said: Said,
) -> Result<(), AllocError> {
    let mut received = Vec::new(rt.alloc());
    received.push(b'$')?;
    received.extend_from_slice(&[b'a'; 4_096])?;
    received.extend_from_slice(end.as_bytes())?;
    hears(rt, &received, item, said);
    Ok(())
}

#[test]
fn long_frames(rt: HostRuntime) -> Result<(), Fail> {
    for end in ["", "#", "#0"] {
        hears_long(&rt, end, Item::Unfinished, NOTHING)?;
    }
    let payload = [b'a'; 4_096];
    for end in ["#00", "#00$?#3f"] {
        hears_long(&rt, end, Item::Packet { payload: &payload }, good(4_100))?;
    }
    let wrong = Item::WrongSum { used: 4_100 };
    hears_long(&rt, "#01", wrong, wrong_sum(4_100))?;
    // with one letter more there is no end; the sum of these is 61
    for end in ["a", "a#61", "aaaa"] {
        hears_long(&rt, end, Item::NoEnd, NO_END)?;
    }
    Ok(())
}
