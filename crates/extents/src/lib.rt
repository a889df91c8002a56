// Ranges of addresses, and tables of them in the caller's memory.
#![tactic(auto)]

mod extent;
mod table;

pub use extent::{Extent, Stored, contains, overlap};
pub use table::{Full, Table};
