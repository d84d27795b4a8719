//! Lists of triangles that segments and rays are tested against.
#![tactic(auto)]

mod beam;
mod bounds;
mod build;
mod hier;
mod item;
mod node;
mod plain;
mod queries;
mod recent;
mod slab;
mod split;
mod walk;

pub use hier::Hier;
pub use plain::Plain;

#[cfg(test)]
mod build_tests;
#[cfg(test)]
mod queries_tests;
#[cfg(test)]
mod tests;
