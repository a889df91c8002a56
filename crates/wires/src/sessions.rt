use packets::{Item, hear};
use std::process::Abort;

// A stream begins with an item: what comes behind it.
fn behind<'a>(rt: &impl Abort, stream: &'a [u8], item: Item) -> &'a [u8] {
    let heard = hear(stream);
    assert!(rt; heard == item, "{stream:?}");
    assert!(rt; heard.used() <= stream.len());
    &stream[heard.used()..]
}

// A stream is these items, one after another.
fn hears_all(rt: &impl Abort, stream: &str, items: &[Item]) {
    let mut rest = stream.as_bytes();
    for item in items {
        rest = behind(rt, rest, *item);
    }
    assert!(rt; rest.is_empty(), "{rest:?}");
}

const OK: Item<'static> = Item::Ignored;

const STOPPED: Item<'static> = Item::Packet {
    payload: b"T001:1234123412341234",
};

const WHY: Item<'static> = Item::Packet { payload: b"?" };

// The two examples of GDB's manual, as either side hears them: the target restarts, and it steps. Where the manual leaves
// registers out by dots, they end after four digits.
const EXAMPLES: &[(&str, &[Item])] = &[
    (
        "$R00#b2$?#3f+",
        &[Item::Packet { payload: b"R00" }, WHY, OK],
    ),
    ("++$T001:1234123412341234#47", &[OK, OK, STOPPED]),
    (
        "$G1445#15$s#73+$g#67+",
        &[
            Item::Packet { payload: b"G1445" },
            Item::Packet { payload: b"s" },
            OK,
            Item::Packet { payload: b"g" },
            OK,
        ],
    ),
    (
        "++$T001:1234123412341234#47+$1455#cf",
        &[OK, OK, STOPPED, OK, Item::Packet { payload: b"1455" }],
    ),
];

#[test]
fn examples_of_the_manual(rt: HostRuntime) {
    for (stream, items) in EXAMPLES {
        hears_all(&rt, stream, items);
    }
}

const WITH_FAULTS: &[Item] = &[
    Item::Ignored,
    Item::Resend,
    Item::WrongSum { used: 5 },
    Item::Resend,
    WHY,
    Item::Ignored,
    Item::Ignored,
    Item::Packet { payload: b"" },
    Item::WrongSum { used: 5 },
    Item::Ignored,
    Item::Ignored,
];

#[test]
fn streams_with_faults(rt: HostRuntime) {
    hears_all(&rt, "+-$?#40-$?#3f\x03#$#00$g##67+", WITH_FAULTS);
    // behind a `$` and 4,095 letters comes a frame, in whose payload the `#` would be too far
    let mut stream = [b'a'; 4_101];
    stream[0] = b'$';
    stream[4_096..].copy_from_slice(b"$?#3f");
    let mut rest = behind(&rt, &stream, Item::NoEnd);
    for _ in 0..4_095 {
        rest = behind(&rt, rest, Item::Ignored);
    }
    rest = behind(&rt, rest, WHY);
    assert!(rt; rest.is_empty());
    // with one letter less it is near enough, and the frame is part of a payload
    stream[1] = b'$';
    rest = behind(&rt, &stream[1..], Item::WrongSum { used: 4_100 });
    assert!(rt; rest.is_empty());
}
