//! Spots, the factor of a light at a spot, and what a kind of light is.
#![tactic(auto)]

mod factor;
mod kind;
mod reflection;
mod spot;

pub use factor::{by_power, eval, factor_of};
pub use kind::Kind;
pub use reflection::material;
pub use spot::Spot;
