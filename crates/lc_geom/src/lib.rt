//! Triangles, and exact tests of segments and rays against them.
#![tactic(auto)]

mod crossing;
mod hit;
mod laws;
mod triangle;
mod triangles;
mod weights;

pub use crossing::{blocks, is_behind};
pub use hit::{Hit, depth, moved};
pub use laws::{blocked_by, crossing_point, nearest_hit};
pub use triangle::{Tri, is_flat, normal_of};
pub use triangles::Triangles;
pub use weights::{Weights, weights_of};
