// Little-endian numbers in a file's bytes.
#![tactic(auto)]

mod laws;
mod number;

pub use laws::every_number_is_read_back;
pub use number::{u32_at, u64_at};
