//! The kinds of light, the clumps that stand for many lights of a kind, and bounds of what a clump gives to a spot.
#![tactic(auto)]

mod cosines;
mod hull;
mod omni;
mod oriented;
mod reach;
mod reflection;
mod sun;

pub use omni::{OmniClump, OmniKind};
pub use oriented::{OrientedClump, OrientedKind};
pub use sun::{SunClump, SunKind};
