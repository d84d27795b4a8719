// The axes of space.
ghost use Rattle.std.specs.Prelude.{◌≡◌};
ghost use Rattle.lc_tree.specs.Extents.{coordinate};

use lc_num::Vec3;

/// An axis of space.
#[derive(Clone, Copy, Debug, PartialEq, Eq)]
pub(crate) enum Axis {
    X,
    Y,
    Z,
}

impl Axis {
    /// The coordinate of a place on this axis.
    pub(crate) fn coordinate(self, place: Vec3) -> i64
        ensures { result ≡ coordinate self place }
    {
        match self {
            Axis::X => place.x,
            Axis::Y => place.y,
            Axis::Z => place.z,
        }
    }
}
