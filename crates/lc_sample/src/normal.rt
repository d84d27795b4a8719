// The normal where a ray hits a surface.
ghost use Rattle.std.specs.Prelude.{◌≡◌, ◌≤◌, ◌<◌, ◌^◌, true, pos, unsigned_abs};
ghost use Rattle.lc_num.specs.Vectors.{Within};
ghost use Rattle.lc_geom.specs.Crossing.{crosses};
ghost use Rattle.lc_geom.specs.Hits.{moved};
ghost use Rattle.lc_geom.specs.Triangles.{IsTri};
ghost use Rattle.lc_geom.specs.Weights.{sum_of};
ghost use Rattle.lc_obj.specs.Meshes.{AreNormals};
ghost use Rattle.lc_view.specs.Camera.{IsRay};
ghost use Rattle.lc_sample.specs.Normals.{blended, facing, mixed, normal_at, part_of, smooth, turned};
ghost use Rattle.lc_sample.specs.Surfaces.{IsSurface};

use crate::surface::Surface;
use lc_geom::{Tri, Weights, is_behind, moved, normal_of, weights_of};
use lc_num::{Vec3, difference, dot, scaled, short_square};
use lc_obj::Triple;
use lc_view::Ray;

/// The greatest component of a normal, and its length where it is not rounded.
pub(crate) const NORMAL_LENGTH: u64 = 16_384;

const ZERO: Vec3 = Vec3 { x: 0, y: 0, z: 0 };

/// The normal of a triangle on the side of a place.
pub(crate) fn facing(e: Vec3, t: &Tri) -> Vec3
    requires e { Within 50_100_000 e }
    requires t { IsTri t.now }
    ensures value { result ≡ facing e t.now }
    ensures within { Within 16384 result }
{
    let normal = normal_of(t);
    if is_behind(e, t) {
        difference(ZERO, normal)
    } else {
        normal
    }
}

/// A weight as a part of all, in 1/2^20, rounded down.
fn part_of(weight: u128, all: u128) -> i64
    requires weight { weight ≤ all }
    requires some { 0 < all }
    requires all { all < 2 ^ 92 }
    ensures value { result ≡ pos (part_of weight all) }
    ensures most { unsigned_abs result ≤ 2 ^ 20 }
{
    (1_048_576 * weight / all) as i64
}

fn mixed(u: i64, v: i64, w: i64, a: i64, b: i64, c: i64) -> i64
    requires u { unsigned_abs u ≤ 2 ^ 20 }
    requires v { unsigned_abs v ≤ 2 ^ 20 }
    requires w { unsigned_abs w ≤ 2 ^ 20 }
    requires a { unsigned_abs a ≤ 16384 }
    requires b { unsigned_abs b ≤ 16384 }
    requires c { unsigned_abs c ≤ 16384 }
    ensures value { result ≡ mixed u v w a b c }
    ensures most { unsigned_abs result ≤ 2 ^ 36 }
{
    u * a + v * b + w * c
}

/// The sum of the corners' normals, each times the part that its corner has, in 1/2^20.
fn blended(weights: Weights, normals: &Triple) -> Vec3
    requires some { 0 < sum_of weights }
    requires most { sum_of weights < 2 ^ 92 }
    requires normals { AreNormals normals.now }
    ensures value { result ≡ blended weights normals.now }
    ensures within { Within (2 ^ 36) result }
{
    let all = weights.a + weights.b + weights.c;
    let u = part_of(weights.a, all);
    let v = part_of(weights.b, all);
    let w = part_of(weights.c, all);
    Vec3 {
        x: mixed(u, v, w, normals.a.x, normals.b.x, normals.c.x),
        y: mixed(u, v, w, normals.a.y, normals.b.y, normals.c.y),
        z: mixed(u, v, w, normals.a.z, normals.b.z, normals.c.z),
    }
}

/// A normal turned to the side of the surface from which it is seen, whose own normal stands in for a zero vector.
fn turned(seen: Vec3, normal: Vec3) -> Vec3
    requires seen { Within 16384 seen }
    requires normal { Within 16384 normal }
    ensures value { result ≡ turned seen normal }
    ensures within { Within 16384 result }
{
    if short_square(normal) == 0 {
        seen
    } else if dot(normal, seen) < 0 {
        difference(ZERO, normal)
    } else {
        normal
    }
}

/// The normal between those of the corners where a ray crosses a triangle, on the side that is seen.
fn smooth(ray: Ray, t: &Tri, seen: Vec3, normals: &Triple) -> Vec3
    requires ray { IsRay ray }
    requires t { IsTri t.now }
    requires crosses { crosses ray.e (moved ray.e ray.d) t.now ≡ true }
    requires seen { Within 16384 seen }
    requires normals { AreNormals normals.now }
    ensures value { result ≡ smooth ray t.now seen normals.now }
    ensures within { Within 16384 result }
{
    let weights = weights_of(ray.e, moved(ray.e, ray.d), t);
    let normal = scaled(blended(weights, normals), NORMAL_LENGTH);
    turned(seen, normal)
}

/// The normal where a ray crosses the triangle of a surface, which is seen from the side of its own normal `seen`.
pub(crate) fn normal_at(ray: Ray, surface: &Surface, seen: Vec3) -> Vec3
    requires ray { IsRay ray }
    requires surface { IsSurface surface.now }
    requires crosses { crosses ray.e (moved ray.e ray.d) surface.now.tri ≡ true }
    requires seen { seen ≡ facing ray.e surface.now.tri }
    requires within { Within 16384 seen }
    ensures value { result ≡ normal_at ray surface.now }
    ensures within { Within 16384 result }
{
    match surface.normals {
        None => seen,
        Some(normals) => smooth(ray, &surface.tri, seen, &normals),
    }
}
