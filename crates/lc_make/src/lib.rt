//! The texts of a scene that is made from a number.
#![tactic(auto)]

mod boxes;
mod counts;
mod lights;
mod made;
mod pieces;

pub use counts::{light_count, sample_count, triangle_count};
pub use made::{Made, make};
