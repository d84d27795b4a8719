// Vectors of whole numbers.

/// A place or a direction. A place is in units of 1/10000; a direction has any length.
#[derive(Clone, Copy, Debug, PartialEq, Eq)]
pub struct Vec3 {
    pub x: i64,
    pub y: i64,
    pub z: i64,
}
