// Spaces as somebody outside would write them, through the trait `Space` alone: a bottom with a cause of its own, a layer
// that is a walk, and one that is not. They are here to be stacked in tests.
#![tactic(auto)]

mod ramp;
mod spare;
mod uses;
mod window;

pub use ramp::Ramp;
pub use spare::Spare;
pub use uses::{byte_in_window, patch_under_window};
pub use window::Window;
