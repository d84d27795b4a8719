// Triangles and their normals.
ghost use Rattle.std.specs.Prelude.{◌≡◌, ◌^◌};
ghost use Rattle.lc_num.specs.Vectors.{Within};
ghost use Rattle.lc_geom.specs.Triangles.{IsTri, unscaled_normal, is_flat, normal_of};

use lc_num::{Vec3, cross, difference, scaled, square};

/// A triangle by its corners, in units of 1/10000. A valid one has components from -5000.0000 to 5000.0000.
#[derive(Clone, Copy, Debug, PartialEq, Eq)]
pub struct Tri {
    pub a: Vec3,
    pub b: Vec3,
    pub c: Vec3,
}

/// The cross product of the sides from the first corner to the second and to the third.
pub(crate) fn unscaled_normal(t: &Tri) -> Vec3
    requires { IsTri t.now }
    ensures value { result ≡ unscaled_normal t.now }
    ensures within { Within (2 ^ 55) result }
{
    cross(difference(t.b, t.a), difference(t.c, t.a))
}

/// The normal of a triangle: 16384 times the cross product of its sides over that product's length rounded down, toward
/// zero in each component. So each component is at most 16384, but where that product has few units the normal can be
/// longer. Seen from its side the corners go round against the clock.
pub fn normal_of(t: &Tri) -> Vec3
    requires { IsTri t.now }
    ensures value { result ≡ normal_of t.now }
    ensures within { Within 16384 result }
{
    scaled(unscaled_normal(t), 16_384)
}

/// Whether the corners lie on one line, so that the triangle has no normal.
pub fn is_flat(t: &Tri) -> bool
    requires { IsTri t.now }
    ensures { result ≡ is_flat t.now }
{
    square(unscaled_normal(t)) == 0
}
