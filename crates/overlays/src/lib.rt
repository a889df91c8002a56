// Overlays: a layer that shows patch bytes in the place of those below.
#![tactic(auto)]

mod overlay;
mod table;

pub use overlay::Overlay;
pub use table::PatchTable;
