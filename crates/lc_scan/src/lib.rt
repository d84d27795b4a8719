//! Scene texts in their smallest parts: the logical lines of a text, the fields of a line, and the numbers and names
//! that fields spell.
#![tactic(auto)]

mod coordinates;
mod decimals;
mod digits;
mod fault;
mod fields;
mod keywords;
mod lines;
mod names;
mod spoken;
mod wholes;

pub use coordinates::{is_coordinate, is_place};
pub use decimals::decimal;
pub use fault::NumFault;
pub use fields::{Fields, rest};
pub use keywords::look_up;
pub use lines::Lines;
pub use names::name_of;
pub use spoken::{count, has_fields, next_spoken};
pub use wholes::whole;
