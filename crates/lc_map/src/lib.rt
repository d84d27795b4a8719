//! Maps of a record: pictures that show, pixel by pixel, how great the bounds and the cuts of its samples are.
#![tactic(auto)]

mod kind;
mod laws;
mod pixel;
mod program;
mod rows;
mod scale;
mod words;

pub use kind::Kind;
pub use laws::{pixels_of_a_record, scale_of_bounds};
pub use program::run;

#[cfg(test)]
mod tests;
