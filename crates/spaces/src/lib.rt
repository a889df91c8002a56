// Address spaces in a pile: a bottom that holds bytes, and layers that each show the space below in another way.
#![tactic(auto)]

mod cause;
mod edit;
mod fault;
mod laws;
mod origin;
mod patch;
mod refusal;
mod rise;
mod room;
mod space;
mod under;
mod watch;

pub use cause::FaultCause;
pub use edit::Edit;
pub use fault::Fault;
pub use laws::{
    every_edit_changes_its_addresses_alone, every_edit_off_the_trail_keeps_the_read,
    every_fault_arose_where_it_says, every_overlay_shows_its_patches,
    every_read_rests_on_its_trail, every_walk_is_lawful,
};
pub use origin::locate;
pub use patch::Patch;
pub use refusal::EditRefusal;
pub use rise::{climb, fill_below};
pub use room::most;
pub use space::Space;
pub use under::{edit_under, no_overlay_here};
pub use watch::{Watched, watched_set};
