//! A heap of a fixed room, whose entries come in a total order. Its comparisons are counted.
#![tactic(auto)]

mod entry;
mod heap;
mod laws;
mod packed;
mod sift;

pub use entry::Entry;
pub use heap::Heap;
pub use laws::{binary_digits, entries_in_order};
