//! The desk: files that are read by name, and four slots that are written.
#![tactic(auto)]

mod answers;
mod desk;
mod host;
mod kept;
mod log;
mod memory;
mod per_slot;
mod streams;
mod tally;

pub use desk::{Desk, PutStop, ReadStop, Slot};
pub use host::HostDesk;
pub use memory::MemoryDesk;

#[cfg(test)]
mod tests;
