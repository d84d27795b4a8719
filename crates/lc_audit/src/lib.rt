//! Whether what a record tells of the light at its samples holds, by the full sum over all lights at some of them.
#![tactic(auto)]

mod auditing;
mod channel;
mod laws;
mod sample;
mod verdict;

pub use auditing::audit;
pub use channel::Channel;
pub use laws::verdicts;
pub use verdict::{Miss, Verdict};
