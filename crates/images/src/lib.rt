// Memory dumps as the bottom of a pile: raw files and LiME files.
#![tactic(auto)]

mod cause;
mod image;
mod laws;
mod lime;
mod load;
mod range;
mod raw;
mod raw_file;
mod refusal;
mod step;

pub use cause::ImageCause;
pub use image::Image;
pub use laws::every_header_is_read_back;
pub use lime::load_lime;
pub use load::NotLoaded;
pub use range::LimeRange;
pub use raw::RawExtent;
pub use raw_file::load_raw;
pub use refusal::LoadRefusal;
