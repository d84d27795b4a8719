//! The tone of a picture: the byte that shows a radiance, and the header of a picture's file.
#![tactic(auto)]

mod picture;
mod tone;

pub use picture::header;
pub use tone::byte;
