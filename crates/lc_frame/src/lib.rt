//! The picture and the record of a job, written to a desk row by row; and its picture by the sums over all lights.
#![tactic(auto)]

mod calls;
mod laws;
mod pixel;
mod plain;
mod render;
mod room;
mod row;
mod stop;
mod summary;

pub use calls::put;
pub use laws::{written_files, written_picture};
pub use plain::plain_rows;
pub use render::{render_rows, start};
pub use room::header_of;
pub use stop::FrameStop;
pub use summary::Summary;
