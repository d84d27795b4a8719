// Differences of vectors.
ghost use Rattle.std.specs.Prelude.{◌≡◌, ◌+◌, ◌^◌, ◌≤◌, ℕ};
ghost use Rattle.lc_num.specs.Vectors.{Within, difference};

use crate::vectors::Vec3;

/// `a - b`, as from a place `b` to a place `a`. The components of each are at most 2^60.
pub fn difference(a: Vec3, b: Vec3) -> Vec3
    requires a { Within (2 ^ 60) a }
    requires b { Within (2 ^ 60) b }
    ensures value { result ≡ difference a b }
    ensures within { (m n : ℕ) → Within m a → Within n b → Within (m + n) result }
{
    Vec3 {
        x: a.x - b.x,
        y: a.y - b.y,
        z: a.z - b.z,
    }
}
