// The lesser and the greater of two vectors, axis by axis.
ghost use Rattle.std.specs.Prelude.{◌≡◌, ℕ};
ghost use Rattle.lc_num.specs.Vectors.{Within, greater, lesser};

use crate::vectors::Vec3;

/// On each axis the lesser of the two coordinates.
pub fn lesser(a: Vec3, b: Vec3) -> Vec3
    ensures value { result ≡ lesser a b }
    ensures within { (m : ℕ) → Within m a → Within m b → Within m result }
{
    Vec3 {
        x: a.x.min(b.x),
        y: a.y.min(b.y),
        z: a.z.min(b.z),
    }
}

/// On each axis the greater of the two coordinates.
pub fn greater(a: Vec3, b: Vec3) -> Vec3
    ensures value { result ≡ greater a b }
    ensures within { (m : ℕ) → Within m a → Within m b → Within m result }
{
    Vec3 {
        x: a.x.max(b.x),
        y: a.y.max(b.y),
        z: a.z.max(b.z),
    }
}
