// The texts of replies, each in front of a buffer that fits the longest.

ghost use Rattle.std.specs.Prelude.{◌≤◌, length};
ghost use Rattle.sessions.specs.Answers.{failed, spoken, fault_reply};
ghost use Rattle.sessions.specs.Texts.{Begins};

use packets::{PAYLOAD, digits};
use spaces::Fault;

pub(crate) fn say(words: &[u8], text: &mut [u8; PAYLOAD]) -> usize
    requires { length words.now ≤ 4096 }
    ensures { Begins words.now text.new result }
{
    text[..words.len()].copy_from_slice(words);
    words.len()
}

// `E` and a number
pub(crate) fn fail(number: u8, text: &mut [u8; PAYLOAD]) -> usize
    ensures { Begins (failed number) text.new result }
{
    let [high, low] = digits::of::<2>(number as u64);
    say(&[b'E', high, low], text)
}

// The bytes of a read, or the cause why its very first address has none.
pub(crate) fn say_bytes(bytes: &[u8], met: Option<Fault>, text: &mut [u8; PAYLOAD]) -> usize
    requires { length bytes.now ≤ 2048 }
    ensures { Begins (spoken bytes.now met) text.new result }
{
    match met {
        Some(fault) if bytes.is_empty() => fail(fault.cause, text),
        _ => digits::spell(bytes, text),
    }
}

// A fault by its depth, its address and its cause.
pub(crate) fn say_fault(fault: Option<Fault>, text: &mut [u8; PAYLOAD]) -> usize
    ensures { Begins (fault_reply fault) text.new result }
{
    let Some(fault) = fault else {
        return say(b"none", text);
    };
    let mut words = [b','; 22];
    words[..2].copy_from_slice(&digits::of::<2>(fault.depth as u64));
    words[3..19].copy_from_slice(&digits::of::<16>(fault.address));
    words[20..].copy_from_slice(&digits::of::<2>(fault.cause as u64));
    say(&words, text)
}
