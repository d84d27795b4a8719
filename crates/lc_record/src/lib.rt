//! The record of a picture: its header, and a line for the answer at each sample.
#![tactic(auto)]

mod fault_kind;
mod head;
mod laws;
mod line;
mod number;
mod reader;
mod stop;

pub use head::{Header, header_text};
pub use laws::readings;
pub use line::{Line, line_text};
pub use reader::{Record, read_record};
pub use stop::RecordStop;
