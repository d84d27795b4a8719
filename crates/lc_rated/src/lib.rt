//! The best-first cut through lit trees, whatever the kinds of light are.
#![tactic(auto)]

mod answer;
mod begin;
mod bench;
mod kind;
mod laws;
mod light;
mod lighting;
mod nodes;
mod refine;
mod run;
mod slot;

pub use answer::Answer;
pub use bench::{Bench, best_cut};
pub use kind::LightKind;
pub use laws::{
    counted_evaluations, cuts_in_order, distance, fraction, node_numbers, sequence_stops, sizes,
};
pub use light::NodeLight;
pub use lighting::{Found, Lighting, Split};
