// Exact tests of segments against triangles.
ghost use Rattle.std.specs.Prelude.{◌≡◌, ◌^◌, ◌<◌, ◌-ℤ◌, int_lt, pos, unsigned_abs};
ghost use Rattle.lc_num.specs.Vectors.{Within};
ghost use Rattle.lc_geom.specs.Crossing.{are_opposite, crosses, have_one_sign, side, volume};
ghost use Rattle.lc_geom.specs.Triangles.{IsTri, unscaled_normal};

use crate::triangle::{Tri, unscaled_normal};
use lc_num::{Vec3, cross, difference, dot};

/// On which side of a triangle's plane a place is, by the cross product of the triangle's sides: 0 in the plane.
fn side(t: &Tri, outward: Vec3, p: Vec3) -> i128
    requires t { IsTri t.now }
    requires outward { outward ≡ unscaled_normal t.now }
    requires small { Within (2 ^ 55) outward }
    requires p { Within 320_000_000 p }
    ensures value { result ≡ side t.now p }
    ensures most { unsigned_abs result < 2 ^ 87 }
{
    dot(outward, difference(p, t.a))
}

/// Whether a place lies on the side of a triangle's plane from which its normal points away, and not in the plane.
pub fn is_behind(p: Vec3, t: &Tri) -> bool
    requires p { Within 50_100_000 p }
    requires t { IsTri t.now }
    ensures { result ≡ int_lt (side t.now p) (pos 0) }
{
    side(t, unscaled_normal(t), p) < 0
}

/// The sides of a triangle's plane on which the ends of a segment lie.
pub(crate) fn sides(p: Vec3, q: Vec3, t: &Tri) -> (i128, i128)
    requires p { Within 50_100_000 p }
    requires q { Within 320_000_000 q }
    requires t { IsTri t.now }
    ensures start { result.0 ≡ side t.now p }
    ensures end { result.1 ≡ side t.now q }
    ensures most_start { unsigned_abs result.0 < 2 ^ 87 }
    ensures most_end { unsigned_abs result.1 < 2 ^ 87 }
{
    let outward = unscaled_normal(t);
    (side(t, outward, p), side(t, outward, q))
}

/// Whether one is below 0 and one above. A processor cannot foresee which, so the signs are compared at once.
fn are_opposite(s: i128, r: i128) -> bool
    ensures { result ≡ are_opposite s r }
{
    (s < 0) != (r < 0) && s != 0 && r != 0
}

/// Whether none is below 0, or none above. Here too the signs are gathered before there is a branch.
fn have_one_sign(u: i128, v: i128, w: i128) -> bool
    ensures { result ≡ have_one_sign u v w }
{
    let some_below = (u < 0) | (v < 0) | (w < 0);
    let some_above = (u > 0) | (v > 0) | (w > 0);
    !(some_below & some_above)
}

/// The volumes between a segment and the first two sides of a triangle. They share the cross product of the segment and
/// the way to the corner where the two sides meet.
fn two_volumes(p: Vec3, q: Vec3, t: &Tri) -> (i128, i128)
    requires p { Within 50_100_000 p }
    requires q { Within 320_000_000 q }
    requires t { IsTri t.now }
    ensures first { result.0 ≡ volume p q t.now.a t.now.b }
    ensures second { result.1 ≡ volume p q t.now.b t.now.c }
    ensures most_first { unsigned_abs result.0 < 2 ^ 87 }
    ensures most_second { unsigned_abs result.1 < 2 ^ 87 }
{
    let turned = cross(difference(t.b, p), difference(q, p));
    (
        dot(difference(t.a, p), turned),
        -dot(difference(t.c, p), turned),
    )
}

/// What is left of the difference of two sides after two volumes.
fn rest(start: i128, end: i128, u: i128, v: i128) -> i128
    requires start { unsigned_abs start < 2 ^ 87 }
    requires end { unsigned_abs end < 2 ^ 87 }
    requires u { unsigned_abs u < 2 ^ 87 }
    requires v { unsigned_abs v < 2 ^ 87 }
    ensures value { result ≡ (end -ℤ start) -ℤ u -ℤ v }
    ensures most { unsigned_abs result < 2 ^ 90 }
{
    end - start - u - v
}

/// The volumes between a segment, whose ends lie on these two sides of a triangle's plane, and the triangle's three
/// sides. They add up to the difference of the two sides of the plane, so the third needs no product.
pub(crate) fn three_volumes(p: Vec3, q: Vec3, t: &Tri, start: i128, end: i128) -> (i128, i128, i128)
    requires p { Within 50_100_000 p }
    requires q { Within 320_000_000 q }
    requires t { IsTri t.now }
    requires start { start ≡ side t.now p }
    requires end { end ≡ side t.now q }
    requires most_start { unsigned_abs start < 2 ^ 87 }
    requires most_end { unsigned_abs end < 2 ^ 87 }
    ensures first { result.0 ≡ volume p q t.now.a t.now.b }
    ensures second { result.1 ≡ volume p q t.now.b t.now.c }
    ensures third { result.2 ≡ volume p q t.now.c t.now.a }
    ensures most_first { unsigned_abs result.0 < 2 ^ 87 }
    ensures most_second { unsigned_abs result.1 < 2 ^ 87 }
    ensures most_third { unsigned_abs result.2 < 2 ^ 90 }
{
    let (u, v) = two_volumes(p, q, t);
    (u, v, rest(start, end, u, v))
}

/// Whether a segment whose ends lie on these two sides of a triangle's plane passes the triangle's sides on one side.
fn passes_within(p: Vec3, q: Vec3, t: &Tri, start: i128, end: i128) -> bool
    requires p { Within 50_100_000 p }
    requires q { Within 320_000_000 q }
    requires t { IsTri t.now }
    requires start { start ≡ side t.now p }
    requires end { end ≡ side t.now q }
    requires most_start { unsigned_abs start < 2 ^ 87 }
    requires most_end { unsigned_abs end < 2 ^ 87 }
    ensures { result ≡ have_one_sign (volume p q t.now.a t.now.b) (volume p q t.now.b t.now.c)
        (volume p q t.now.c t.now.a) }
{
    let (u, v, w) = three_volumes(p, q, t, start, end);
    have_one_sign(u, v, w)
}

/// Whether a segment whose ends lie on these two sides of a triangle's plane crosses the triangle.
pub(crate) fn crosses_between(p: Vec3, q: Vec3, t: &Tri, start: i128, end: i128) -> bool
    requires p { Within 50_100_000 p }
    requires q { Within 320_000_000 q }
    requires t { IsTri t.now }
    requires start { start ≡ side t.now p }
    requires end { end ≡ side t.now q }
    requires most_start { unsigned_abs start < 2 ^ 87 }
    requires most_end { unsigned_abs end < 2 ^ 87 }
    ensures { result ≡ crosses p q t.now }
{
    are_opposite(start, end) && passes_within(p, q, t, start, end)
}

/// Whether the triangle blocks the segment from `p` to `q`: the two lie strictly on both sides of its plane, and the
/// segment passes all its sides on one side or meets them. The components of `p` are at most 50,100,000, those of `q`
/// at most 320,000,000.
pub fn blocks(p: Vec3, q: Vec3, t: &Tri) -> bool
    requires p { Within 50_100_000 p }
    requires q { Within 320_000_000 q }
    requires t { IsTri t.now }
    ensures { result ≡ crosses p q t.now }
{
    let (start, end) = sides(p, q, t);
    crosses_between(p, q, t, start, end)
}
