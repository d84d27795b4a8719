// Products of vectors.
ghost use Rattle.std.specs.Prelude.{◌≡◌, ℕ, ◌*◌, ◌^◌, ◌≤◌, ◌-ℤ◌, ◌*ℤ◌, unsigned_abs};
ghost use Rattle.lc_num.specs.Vectors.{Within, cross, dot, square};

use crate::vectors::Vec3;

/// The dot product `a.b`, in the product of the two vectors' units.
pub fn dot(a: Vec3, b: Vec3) -> i128
    requires a { Within (2 ^ 60) a }
    requires b { Within (2 ^ 60) b }
    ensures { result ≡ dot a b }
{
    a.x as i128 * b.x as i128 + a.y as i128 * b.y as i128 + a.z as i128 * b.z as i128
}

/// The dot product of vectors whose products fit 64 bits.
pub fn short_dot(a: Vec3, b: Vec3) -> i64
    requires a { Within (2 ^ 30) a }
    requires b { Within (2 ^ 30) b }
    ensures { result ≡ dot a b }
{
    a.x * b.x + a.y * b.y + a.z * b.z
}

/// The squared length `v.v`, in the square of the vector's unit.
pub fn square(v: Vec3) -> u128
    requires { Within (2 ^ 60) v }
    ensures { result ≡ square v }
{
    dot(v, v) as u128
}

/// The squared length of a vector whose products fit 64 bits.
pub fn short_square(v: Vec3) -> u64
    requires { Within (2 ^ 30) v }
    ensures { result ≡ square v }
{
    short_dot(v, v) as u64
}

/// The determinant of the rows `a b` and `c d`.
fn determinant(a: i64, b: i64, c: i64, d: i64) -> i64
    requires a { unsigned_abs a ≤ 2 ^ 30 }
    requires b { unsigned_abs b ≤ 2 ^ 30 }
    requires c { unsigned_abs c ≤ 2 ^ 30 }
    requires d { unsigned_abs d ≤ 2 ^ 30 }
    ensures { result ≡ a *ℤ d -ℤ b *ℤ c }
{
    a * d - b * c
}

/// The cross product `a x b`, at right angles to both vectors, in the product of their units. It is as long as the
/// parallelogram of the two is large, and zero where they have one direction. The components are at most 2^30.
pub fn cross(a: Vec3, b: Vec3) -> Vec3
    requires a { Within (2 ^ 30) a }
    requires b { Within (2 ^ 30) b }
    ensures value { result ≡ cross a b }
    ensures within { (m n : ℕ) → Within m a → Within n b → Within (2 * (m * n)) result }
{
    Vec3 {
        x: determinant(a.y, a.z, b.y, b.z),
        y: determinant(a.z, a.x, b.z, b.x),
        z: determinant(a.x, a.y, b.x, b.y),
    }
}
