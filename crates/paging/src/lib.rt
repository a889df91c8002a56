// x86 paging in three schemes: a layer that leads each address through tables in the space below.
#![tactic(auto)]

mod bits;
mod cause;
mod entry;
mod four_level;
mod laws;
mod layer;
mod pae;
mod scheme;
mod target;
mod translation;
mod two_level;
mod walk;

pub use cause::PagingCause;
pub use entry::{Entry, Page, Target};
pub use four_level::FourLevel;
pub use laws::{every_index_has_its_bits, every_trail_is_short, worked_examples};
pub use layer::Paging;
pub use pae::Pae;
pub use scheme::Scheme;
pub use translation::Translation;
pub use two_level::TwoLevel;
