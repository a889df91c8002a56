// GDB's remote protocol, on bytes: what is heard, what is framed, and what a payload asks for.
#![tactic(auto)]

mod asking;
mod command;
mod command_refusal;
pub mod digits;
mod frame_refusal;
mod framing;
mod hearing;
mod item;
mod laws;
mod split;

pub use command::Command;
pub use command_refusal::CommandRefusal;
pub use frame_refusal::FrameRefusal;
pub use framing::{PAYLOAD, REPLY, frame};
pub use hearing::hear;
pub use item::Item;
pub use laws::every_stream_is_its_items;
