// Replays: lists of calls of a session, one behind the other, and what comes of each.
#![tactic(auto)]

mod call;
mod replaying;

pub use call::{Call, Outcome, Slot};
pub use replaying::{Stage, replay};
