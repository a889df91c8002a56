// The pile of a stopped cart, from the bytes of its two files.
#![tactic(auto)]

mod cart;
mod laws;
mod root;

pub use cart::{Cart, CartOn, DUMP, RANGES, layer, load_cart};
pub use laws::worked_examples;
pub use root::{ROOT, cr3_in};
