// Patch files: records that each patch an address of a pile, or take its patch back.
#![tactic(auto)]

mod applying;
mod laws;
mod record;
mod refusal;
mod stopped;

pub use applying::apply;
pub use laws::every_patch_file_ends_in_one_of_four_ways;
pub use record::{RECORD, Record};
pub use refusal::PatchFileRefusal;
pub use stopped::Stopped;
