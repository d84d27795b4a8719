// Boxes along the axes: their least distance from a place, and bounds of cosines over them.
ghost use Rattle.std.specs.Prelude.{◌≡◌, ℕ, ◌+◌, ◌*◌, ◌^◌, ◌≤◌, ◌-ℤ◌, ◌*ℤ◌, ◌≤ℤ◌, unsigned_abs};
ghost use Rattle.std.specs.Int.{int_min, int_max};
ghost use Rattle.lc_num.specs.Vectors.{Within, difference, square};
ghost use Rattle.lc_num.specs.Boxes.{IsInside, IsBoxWithin, CanBound, near2, greatest_dot, greatest_product, greatest_dot_of_boxes, cos_top, emit_top, BoundsCosines, BoundsEmission};
ghost use Rattle.lc_num.specs.declared.vectors.Vec3.{Vec3};

use crate::cosines::cosine_at_most;
use crate::products::short_square;
use crate::vectors::Vec3;
use std::marker::Model;

/// A box along the axes, by its least and its greatest corner. On each axis the least is at most the greatest.
#[derive(Clone, Copy, Debug, PartialEq, Eq)]
pub struct Span3 {
    pub lo: Vec3,
    pub hi: Vec3,
}

impl Model for Span3 {
    ghost use Rattle.lc_num.specs.Boxes.{SpanEnds, IsOrdered};

    ghost Value = { SpanEnds };

    ghost view = { λ b. record { lo = b.lo; hi = b.hi } };

    ghost invariant = { λ b. IsOrdered b.lo b.hi };

    ghost inverse = { λ e. record { lo = e.lo; hi = e.hi } };
}

/// How far `x` is from what lies between `lo` and `hi`.
fn gap(x: i64, lo: i64, hi: i64) -> u64
    requires order { lo ≤ℤ hi }
    requires x { unsigned_abs x ≤ 50_100_000 }
    requires lo { unsigned_abs lo ≤ 50_100_000 }
    requires hi { unsigned_abs hi ≤ 50_100_000 }
    ensures value { result ≡ unsigned_abs (int_max lo (int_min x hi) -ℤ x) }
    ensures most { result ≤ 100_200_000 }
{
    x.clamp(lo, hi).abs_diff(x)
}

/// The least squared distance from a place `x` to a point of the box, in the square of the places' unit. The
/// components of `x` and of the box are at most 50,100,000.
pub fn near2(x: Vec3, span: Span3) -> u128
    requires x { Within 50_100_000 x }
    requires span { IsBoxWithin 50_100_000 span }
    ensures value { result ≡ near2 x span }
    ensures reached { (p : Vec3) × IsInside span p × (result ≡ square (difference p x)) }
    ensures least { (p : Vec3) → IsInside span p → result ≤ square (difference p x) }
    ensures within { (m n : ℕ) → Within m x → IsBoxWithin n span → result ≤ 3 * ((m + n) * (m + n)) }
{
    let a = gap(x.x, span.lo.x, span.hi.x);
    let b = gap(x.y, span.lo.y, span.hi.y);
    let c = gap(x.z, span.lo.z, span.hi.z);
    (a * a + b * b + c * c) as u128
}

/// The greater of two products with `n`.
fn greater_product(n: i64, lo: i64, hi: i64) -> i64
    requires lo { unsigned_abs n * unsigned_abs lo ≤ 16384 * 100_100_000 }
    requires hi { unsigned_abs n * unsigned_abs hi ≤ 16384 * 100_100_000 }
    ensures value { result ≡ int_max (n *ℤ lo) (n *ℤ hi) }
    ensures most { unsigned_abs result ≤ 16384 * 100_100_000 }
{
    (n * lo).max(n * hi)
}

/// The greatest dot product of `n` with a point of the box.
pub(crate) fn greatest_dot(n: Vec3, span: Span3) -> i64
    requires { CanBound n span }
    ensures value { result ≡ greatest_dot n span }
    ensures most { unsigned_abs result ≤ 3 * (16384 * 100_100_000) }
{
    greater_product(n.x, span.lo.x, span.hi.x)
        + greater_product(n.y, span.lo.y, span.hi.y)
        + greater_product(n.z, span.lo.z, span.hi.z)
}

/// A bound of `cos16(n, b)` in 1/65536 for each `b` of the box whose squared length is at least `least`. With N the
/// greatest dot product of `n` with a point of the box, it is 0 where N is not positive, else 65536 where `least` is 0,
/// else the greatest k up to 65536 with `k^2 * (n.n) * least <= 2^32 * N^2`. The components of one of `n` and the box
/// are at most 16384 and those of the other at most 100,100,000, and `least` is at most the greatest squared length
/// that these allow.
pub fn cos_top(n: Vec3, span: Span3, least: u128) -> u32
    requires n { CanBound n span }
    requires least { least ≤ 3 * (100_100_000 * 100_100_000) }
    ensures value { result ≡ cos_top n span least }
    ensures most { result ≤ 65536 }
    ensures bounds { BoundsCosines n span least result }
{
    cosine_at_most(greatest_dot(n, span), short_square(n) as u128 * least)
}

/// The greatest of the four products of an end of the one interval and an end of the other.
fn greatest_product(a_lo: i64, a_hi: i64, b_lo: i64, b_hi: i64) -> i64
    requires a_lo { unsigned_abs a_lo ≤ 16384 }
    requires a_hi { unsigned_abs a_hi ≤ 16384 }
    requires b_lo { unsigned_abs b_lo ≤ 100_100_000 }
    requires b_hi { unsigned_abs b_hi ≤ 100_100_000 }
    ensures value { result ≡ greatest_product a_lo a_hi b_lo b_hi }
    ensures most { unsigned_abs result ≤ 16384 * 100_100_000 }
{
    greater_product(a_lo, b_lo, b_hi).max(greater_product(a_hi, b_lo, b_hi))
}

/// The greatest dot product of a vector of the one box and a vector of the other.
pub(crate) fn greatest_dot_of_boxes(a: Span3, b: Span3) -> i64
    requires a { IsBoxWithin 16384 a }
    requires b { IsBoxWithin 100_100_000 b }
    ensures value { result ≡ greatest_dot_of_boxes a b }
    ensures most { unsigned_abs result ≤ 3 * (16384 * 100_100_000) }
{
    greatest_product(a.lo.x, a.hi.x, b.lo.x, b.hi.x)
        + greatest_product(a.lo.y, a.hi.y, b.lo.y, b.hi.y)
        + greatest_product(a.lo.z, a.hi.z, b.lo.z, b.hi.z)
}

/// A bound of `cos16(m, d)` in 1/65536 for each normal `m` of a box whose squared length is at least `least_n`, and
/// each offset `d` of another whose squared length is at least `least_d`. With N the sum over the axes of the
/// greatest of the four products of an end of normals and an end of offsets, it is 0 where N is not positive, else
/// 65536 where a least is 0, else the greatest k up to 65536 with `k^2 * least_n * least_d <= 2^32 * N^2`. The
/// components of normals are at most 16384 and those of offsets at most 100,100,000, and each least is at most the
/// greatest squared length that these allow.
pub fn emit_top(normals: Span3, least_n: u128, offsets: Span3, least_d: u128) -> u32
    requires normals { IsBoxWithin 16384 normals }
    requires least_n { least_n ≤ 3 * 2 ^ 28 }
    requires offsets { IsBoxWithin 100_100_000 offsets }
    requires least_d { least_d ≤ 3 * (100_100_000 * 100_100_000) }
    ensures value { result ≡ emit_top normals least_n offsets least_d }
    ensures most { result ≤ 65536 }
    ensures bounds { BoundsEmission normals least_n offsets least_d result }
{
    cosine_at_most(greatest_dot_of_boxes(normals, offsets), least_n * least_d)
}
