// The three kinds of light.
use lc_num::{List, Power, Vec3};

/// A light that shines alike in all directions.
#[derive(Clone, Copy, Debug, PartialEq, Eq)]
pub struct Omni {
    pub place: Vec3,
    pub power: Power,
}

/// A light that shines to one side, by the cosine to its normal: a sample of an area light. The normal is at most 16384
/// long.
#[derive(Clone, Copy, Debug, PartialEq, Eq)]
pub struct Oriented {
    pub place: Vec3,
    pub normal: Vec3,
    pub power: Power,
}

/// A light at infinity. Its direction, which is toward the light, is at most 16384 long.
#[derive(Clone, Copy, Debug, PartialEq, Eq)]
pub struct Sun {
    pub toward: Vec3,
    pub power: Power,
}

/// The lights of a scene, at most 65,536. A light's number is its place in the list of its kind.
#[derive(Drop)]
pub struct Lights {
    pub omni: List<Omni>,
    pub oriented: List<Oriented>,
    pub sun: List<Sun>,
}
