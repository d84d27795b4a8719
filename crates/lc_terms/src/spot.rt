// A place on a surface.
use lc_num::{Colour, Vec3};

/// A place on a surface, seen from one side.
#[derive(Clone, Copy, Debug, PartialEq, Eq)]
pub struct Spot {
    /// The place, in units of 1/10000, at most 50,100,000 in each component.
    pub x: Vec3,
    /// The normal, at most 16384 in each component.
    pub n: Vec3,
    /// The view vector mirrored at the normal, at most 16384 in each component.
    pub r: Vec3,
    /// The diffuse colour, at most 10000 in each channel.
    pub kd: Colour,
    /// The specular colour, at most 10000 in each channel.
    pub ks: Colour,
    /// The exponent of the highlight, at most 1000.
    pub ns: u32,
}
