// The surfaces of a scene.
use lc_geom::Tri;
use lc_num::Colour;
use lc_obj::Triple;

/// How a surface sends light back.
#[derive(Clone, Copy, Debug, PartialEq, Eq)]
pub struct Reflectance {
    /// The diffuse share, at most 10000 in each channel, in 1/10000.
    pub kd: Colour,
    /// The specular share, at most 10000 in each channel, in 1/10000.
    pub ks: Colour,
    /// The exponent of the highlight, at most 1000.
    pub ns: u32,
}

/// A triangle with what is needed where a ray hits it.
#[derive(Clone, Copy, Debug, PartialEq, Eq)]
pub struct Surface {
    pub tri: Tri,
    /// The normals of the corners, at most 16384 in each component, where each corner has one.
    pub normals: Option<Triple>,
    pub reflectance: Reflectance,
}
