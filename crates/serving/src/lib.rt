// Serves GDB: what it sends is heard and answered as soon as it is whole, in whatever pieces it comes.
#![tactic(auto)]

mod latest;
mod laws;
mod pc;
mod received;
mod server;
mod to_end;

pub use laws::{each_item_in_turn, every_served_session_is_kept, few_turns, pieces_do_not_matter};
pub use pc::with_known_pc;
pub use server::Server;
pub use to_end::serve;
