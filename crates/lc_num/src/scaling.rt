// Vectors of a given length.
ghost use Rattle.std.specs.Prelude.{◌≡◌, ◌^◌, ◌*◌, ◌/◌, ◌<◌, ◌≤◌, ◌↔◌, ◌*ℤ◌, pos, unsigned_abs, IsTrue};
ghost use Rattle.std.specs.Int.RustNames.{int_div};
ghost use Rattle.lc_num.specs.Roots.{isqrt};
ghost use Rattle.lc_num.specs.Vectors.{Within, square};
ghost use Rattle.lc_num.specs.Cosines.{scaled};

use crate::products::{short_square, square};
use crate::roots::{isqrt, isqrt_of_word};
use crate::vectors::Vec3;

const SHORT: u64 = 1 << 30;

/// Whether each component is at most 2^30 in absolute value.
fn is_short(v: Vec3) -> bool
    ensures { IsTrue result ↔ Within (2 ^ 30) v }
{
    v.x.unsigned_abs() <= SHORT && v.y.unsigned_abs() <= SHORT && v.z.unsigned_abs() <= SHORT
}

/// The length, rounded down.
fn length_of(v: Vec3) -> u64
    requires { Within (2 ^ 60) v }
    ensures { result ≡ isqrt (square v) }
{
    if is_short(v) {
        isqrt_of_word(short_square(v))
    } else {
        isqrt(square(v))
    }
}

/// `l * size / length`, rounded down.
fn share(l: u64, size: u64, length: u64) -> u64
    requires l { l ≤ 2 ^ 28 }
    requires length { 0 < length }
    requires size { size ≤ length }
    ensures value { result ≡ l * size / length }
    ensures most { result ≤ l }
{
    if length < 0x1_0000_0000 {
        l * size / length
    } else {
        (l as u128 * size as u128 / length as u128) as u64
    }
}

/// `l * a / length`, toward zero.
fn part(l: u64, a: i64, length: u64) -> i64
    requires l { l ≤ 2 ^ 28 }
    requires length { 0 < length }
    requires a { unsigned_abs a ≤ length }
    ensures { result ≡ int_div (pos l *ℤ a) (pos length) }
{
    let size = share(l, a.unsigned_abs(), length) as i64;
    if a < 0 { -size } else { size }
}

/// The vector in the direction of `v` whose components are at most `l`: `l * v / isqrt(v.v)`, each component rounded
/// toward zero, and the zero vector for the zero vector. As the root is rounded down, a vector of few units comes out
/// longer than `l`. A component of `v` is at most 2^60, and `l` at most 2^28.
pub fn scaled(v: Vec3, l: u64) -> Vec3
    requires v { Within (2 ^ 60) v }
    requires l { l ≤ 2 ^ 28 }
    ensures value { result ≡ scaled v l }
    ensures within { Within l result }
{
    let length = length_of(v);
    if length == 0 {
        return Vec3 { x: 0, y: 0, z: 0 };
    }
    Vec3 {
        x: part(l, v.x, length),
        y: part(l, v.y, length),
        z: part(l, v.z, length),
    }
}
