//! Binary trees of lights, built by halving.
#![tactic(auto)]

mod axis;
mod build;
mod laws;
mod leaves;
mod numbered;
mod row;
mod tree;

pub use laws::longest_extents;
pub use tree::Tree;
