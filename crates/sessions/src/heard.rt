use crate::talk::{Owing, Waiting};
use packets::Item;

// What was heard.
pub enum Heard<'a> {
    // A good frame. Its payload is to be answered.
    Packet { owed: Owing, payload: &'a [u8] },
    // Anything else. The talk still waits.
    Other { talk: Waiting, item: Item<'a> },
}
