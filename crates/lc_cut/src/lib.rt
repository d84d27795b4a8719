//! The light at a spot, by the best-first cut of light trees.
#![tactic(auto)]

mod forest;
mod laws;
mod lit_forest;
mod node;

pub use forest::{Ask, Bench, Forest, cut};
pub use laws::{distance_to_all_lights, forests_of_all_lights, nodes_within_bounds, sums_fit};
pub use lc_rated::Answer;
