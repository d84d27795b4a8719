//! Lights, and the reader of light files.
#![tactic(auto)]

mod area;
mod fault_kind;
mod keyword;
mod lights;
mod line;
mod reader;
mod source;
mod stop;
mod values;

pub use area::area_powers_add_up;
pub use lights::{Lights, Omni, Oriented, Sun};
pub use reader::{oriented_powers_are_those_of_areas, read_lights};
pub use stop::LightStop;
