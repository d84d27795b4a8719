//! Whole-number vectors, colours and lists, and the fixed-point terms of the renderer.
#![tactic(auto)]

mod boxes;
mod channels;
mod cosines;
mod crosses;
mod differences;
mod extremes;
mod guesses;
mod lists;
mod memory;
mod names;
mod powers;
mod products;
mod roots;
mod rules;
mod scaling;
mod steps;
mod texts;
mod vectors;

pub use boxes::{Span3, cos_top, emit_top, near2};
pub use channels::{Colour, Power, Rgb};
pub use cosines::cos16;
pub use crosses::{cos_top2, emit_top2};
pub use differences::difference;
pub use extremes::{greater, lesser};
pub use lists::List;
pub use memory::Memory;
pub use names::Name;
pub use powers::{pow16, powers_by_squares};
pub use products::{cross, dot, short_square, square};
pub use roots::isqrt;
pub use rules::Rule;
pub use scaling::scaled;
pub use steps::Steps;
pub use texts::Text;
pub use vectors::Vec3;
