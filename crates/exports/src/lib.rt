// The proved libraries for programs in other languages: four functions that such a program links and calls.
#![tactic(auto)]

mod bytewise;
mod day;
mod loading;
mod reading;
mod sent;
mod told;
#[cfg(test)]
mod uses;

pub use day::aisle_serve;
pub use loading::aisle_load;
pub use reading::{aisle_read, aisle_read_bytewise};
pub use told::Told;
