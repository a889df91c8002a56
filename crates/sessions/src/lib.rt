// Sessions of GDB over a pile: commands are heard and answered in turn, and patch files applied at any time. A session is a
// talk with GDB and the server of the pile.
#![tactic(auto)]

mod answering;
mod heard;
mod laws;
mod pile_server;
mod refusal;
mod talk;
mod texts;

pub use answering::REGISTERS;
pub use heard::Heard;
pub use laws::{
    every_last_fault_arose, every_refusal_has_the_smallest_number,
    every_write_off_the_trail_keeps_the_read, nothing_refused_takes_effect,
    what_is_kept_leaves_nothing_open,
};
pub use pile_server::{PileServer, open};
pub use refusal::PayloadRefusal;
pub use talk::{Owing, Waiting};
