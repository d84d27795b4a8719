// Sharper bounds of cosines over boxes, by cross products.
ghost use Rattle.std.specs.Prelude.{◌≡◌, ◌+◌, ◌*◌, ◌^◌, ◌<◌, ◌≤◌, ◌-ℤ◌, ◌*ℤ◌, ◌≤ℤ◌, unsigned_abs, min};
ghost use Rattle.std.specs.Int.{int_min, int_max};
ghost use Rattle.lc_num.specs.Cosines.{cosine_at_most};
ghost use Rattle.lc_num.specs.Boxes.{IsBoxWithin, CanBound, greatest_product, cos_top, emit_top, BoundsCosines, BoundsEmission};
ghost use Rattle.lc_num.specs.Crosses.{least_square, least_product, least_cross, cosine_beside, cos_top2, emit_top2};

use crate::boxes::{Span3, greatest_dot, greatest_dot_of_boxes};
use crate::cosines::cosine_at_most;
use crate::products::short_square;
use crate::vectors::Vec3;

/// The numbers from `lo` to `hi`.
#[derive(Clone, Copy)]
struct Between {
    lo: i64,
    hi: i64,
}

/// The products of `n` and a number from `lo` to `hi` lie between these.
fn multiples(n: i64, lo: i64, hi: i64) -> Between
    requires lo { unsigned_abs n * unsigned_abs lo ≤ 16384 * 100_100_000 }
    requires hi { unsigned_abs n * unsigned_abs hi ≤ 16384 * 100_100_000 }
    ensures lo { result.lo ≡ int_min (n *ℤ lo) (n *ℤ hi) }
    ensures hi { result.hi ≡ int_max (n *ℤ lo) (n *ℤ hi) }
    ensures order { result.lo ≤ℤ result.hi }
    ensures lo_most { unsigned_abs result.lo ≤ 16384 * 100_100_000 }
    ensures hi_most { unsigned_abs result.hi ≤ 16384 * 100_100_000 }
{
    let a = n * lo;
    let b = n * hi;
    Between {
        lo: a.min(b),
        hi: a.max(b),
    }
}

/// The products of a number of the one interval and a number of the other lie between these.
fn products(a_lo: i64, a_hi: i64, b_lo: i64, b_hi: i64) -> Between
    requires a_lo { unsigned_abs a_lo ≤ 16384 }
    requires a_hi { unsigned_abs a_hi ≤ 16384 }
    requires b_lo { unsigned_abs b_lo ≤ 100_100_000 }
    requires b_hi { unsigned_abs b_hi ≤ 100_100_000 }
    ensures lo { result.lo ≡ least_product a_lo a_hi b_lo b_hi }
    ensures hi { result.hi ≡ greatest_product a_lo a_hi b_lo b_hi }
    ensures order { result.lo ≤ℤ result.hi }
    ensures lo_most { unsigned_abs result.lo ≤ 16384 * 100_100_000 }
    ensures hi_most { unsigned_abs result.hi ≤ 16384 * 100_100_000 }
{
    let p = multiples(a_lo, b_lo, b_hi);
    let q = multiples(a_hi, b_lo, b_hi);
    Between {
        lo: p.lo.min(q.lo),
        hi: p.hi.max(q.hi),
    }
}

/// The least square of a number from `lo` to `hi`.
fn least_square(lo: i64, hi: i64) -> u128
    requires order { lo ≤ℤ hi }
    requires lo { unsigned_abs lo ≤ 2 ^ 42 }
    requires hi { unsigned_abs hi ≤ 2 ^ 42 }
    ensures value { result ≡ least_square lo hi }
    ensures most { result ≤ 2 ^ 84 }
{
    let nearest = lo.max(-hi).max(0) as u128;
    nearest * nearest
}

/// The least square of a difference of a number between `p` and one between `q`.
fn least_difference(p: Between, q: Between) -> u128
    requires p { p.lo ≤ℤ p.hi }
    requires q { q.lo ≤ℤ q.hi }
    requires p_lo { unsigned_abs p.lo ≤ 16384 * 100_100_000 }
    requires p_hi { unsigned_abs p.hi ≤ 16384 * 100_100_000 }
    requires q_lo { unsigned_abs q.lo ≤ 16384 * 100_100_000 }
    requires q_hi { unsigned_abs q.hi ≤ 16384 * 100_100_000 }
    ensures value { result ≡ least_square (p.lo -ℤ q.hi) (p.hi -ℤ q.lo) }
    ensures most { result ≤ 2 ^ 84 }
{
    least_square(p.lo - q.hi, p.hi - q.lo)
}

/// At most the squared length of the cross product of `n` with any point of the box.
fn least_cross(n: Vec3, span: Span3) -> u128
    requires { CanBound n span }
    ensures value { result ≡ least_cross (record { lo = n; hi = n }) span }
    ensures most { result ≤ 3 * 2 ^ 84 }
{
    let x = least_difference(
        multiples(n.y, span.lo.z, span.hi.z),
        multiples(n.z, span.lo.y, span.hi.y),
    );
    let y = least_difference(
        multiples(n.z, span.lo.x, span.hi.x),
        multiples(n.x, span.lo.z, span.hi.z),
    );
    let z = least_difference(
        multiples(n.x, span.lo.y, span.hi.y),
        multiples(n.y, span.lo.x, span.hi.x),
    );
    x + y + z
}

/// At most the squared length of the cross product of any vector of the one box with any of the other.
fn least_cross_of_boxes(a: Span3, b: Span3) -> u128
    requires a { IsBoxWithin 16384 a }
    requires b { IsBoxWithin 100_100_000 b }
    ensures value { result ≡ least_cross a b }
    ensures most { result ≤ 3 * 2 ^ 84 }
{
    let x = least_difference(
        products(a.lo.y, a.hi.y, b.lo.z, b.hi.z),
        products(a.lo.z, a.hi.z, b.lo.y, b.hi.y),
    );
    let y = least_difference(
        products(a.lo.z, a.hi.z, b.lo.x, b.hi.x),
        products(a.lo.x, a.hi.x, b.lo.z, b.hi.z),
    );
    let z = least_difference(
        products(a.lo.x, a.hi.x, b.lo.y, b.hi.y),
        products(a.lo.y, a.hi.y, b.lo.x, b.hi.x),
    );
    x + y + z
}

/// The lesser of two cosines in 1/65536 of one dot product: that of a product of squared lengths, and that of the
/// squared length of a cross product. It is one root, as the greater of two divisors gives the lesser cosine.
fn lesser_cosine(along: i64, squares: u128, across: u128) -> u32
    requires along { unsigned_abs along < 2 ^ 43 }
    requires across { across ≤ 3 * 2 ^ 84 }
    ensures value { result ≡ min (cosine_at_most along squares) (cosine_beside along across) }
    ensures most { result ≤ 65536 }
{
    let own = along.unsigned_abs() as u128;
    cosine_at_most(along, squares.max(own * own + across))
}

/// A bound of `cos16(n, b)` in 1/65536 for each `b` of the box whose squared length is at least `least`: the lesser
/// of `cos_top` and of a second one. With N the greatest dot product of `n` with a point of the box and T the least
/// squared length that the components of `n x b` allow, each by itself, the second is 0 where N is not positive, and
/// else the greatest k with `k^2 * (N^2 + T) <= 2^32 * N^2`. The ranges are those of `cos_top`.
pub fn cos_top2(n: Vec3, span: Span3, least: u128) -> u32
    requires n { CanBound n span }
    requires least { least ≤ 3 * (100_100_000 * 100_100_000) }
    ensures value { result ≡ cos_top2 n span least }
    ensures most { result ≤ 65536 }
    ensures bounds { BoundsCosines n span least result }
    ensures lesser { result ≤ cos_top n span least }
{
    let along = greatest_dot(n, span);
    if along <= 0 {
        return 0;
    }
    lesser_cosine(along, short_square(n) as u128 * least, least_cross(n, span))
}

/// A bound of `cos16(m, d)` in 1/65536 for each normal `m` of a box whose squared length is at least `least_n`, and
/// each offset `d` of another whose squared length is at least `least_d`: the lesser of `emit_top` and of a second
/// one, which is that of `cos_top2` with the greatest dot product and the least cross product of the two boxes. The
/// ranges are those of `emit_top`.
pub fn emit_top2(normals: Span3, least_n: u128, offsets: Span3, least_d: u128) -> u32
    requires normals { IsBoxWithin 16384 normals }
    requires least_n { least_n ≤ 3 * 2 ^ 28 }
    requires offsets { IsBoxWithin 100_100_000 offsets }
    requires least_d { least_d ≤ 3 * (100_100_000 * 100_100_000) }
    ensures value { result ≡ emit_top2 normals least_n offsets least_d }
    ensures most { result ≤ 65536 }
    ensures bounds { BoundsEmission normals least_n offsets least_d result }
    ensures lesser { result ≤ emit_top normals least_n offsets least_d }
{
    let along = greatest_dot_of_boxes(normals, offsets);
    if along <= 0 {
        return 0;
    }
    lesser_cosine(
        along,
        least_n * least_d,
        least_cross_of_boxes(normals, offsets),
    )
}
