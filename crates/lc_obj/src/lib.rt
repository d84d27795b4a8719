//! Meshes, and the reader of OBJ files.
#![tactic(auto)]

mod corner;
mod faces;
mod fault_kind;
mod index;
mod keyword;
mod mesh;
mod reader;
mod reading;
mod stop;
mod tables;
mod uses;
mod values;

pub use mesh::{Face, Mesh, Triple, Uv, UvTriple};
pub use reader::read_obj;
pub use stop::ObjStop;
