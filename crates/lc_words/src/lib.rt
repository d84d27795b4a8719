//! The words of seeded streams, which choose representatives and the places of samples.
#![tactic(auto)]

mod stream;

pub use stream::Stream;
