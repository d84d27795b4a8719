//! The commands of `lightcuts`, over a desk.
#![tactic(auto)]

mod audit;
mod fixed;
mod make;
mod names;
pub mod note;
mod parse;
mod plain;
mod probe;
mod program;
mod ranges;
mod read;
mod render;
mod status;
mod summary;
mod words;
mod world;
mod write;

pub use program::run;
pub use read::read_record_file;
pub use status::{Source, Status, Stop};
pub use write::settle;
