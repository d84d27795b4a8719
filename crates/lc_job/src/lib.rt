//! Jobs, and the reader of job files.
#![tactic(auto)]

mod draft;
mod entry;
mod fault_kind;
mod job;
mod key;
mod line;
mod reader;
mod stop;
mod values;

pub use job::Job;
pub use key::Key;
pub use reader::read_job;
pub use stop::JobStop;
