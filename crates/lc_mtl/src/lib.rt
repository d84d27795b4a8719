//! Materials, and the reader of material libraries.
#![tactic(auto)]

mod drafts;
mod entry;
mod fault_kind;
mod keyword;
mod line;
mod material;
mod numbers;
mod reader;
mod stop;

pub use material::{Material, Materials};
pub use reader::read_mtl;
pub use stop::MtlStop;
