// The spots of hits.
ghost use Rattle.std.specs.Prelude.{◌≡◌, ◌≤◌, ◌<◌, ◌^◌, Some, true, pos, ◌*ℤ◌, int_div, unsigned_abs};
ghost use Rattle.lc_num.specs.Vectors.{Within, dot};
ghost use Rattle.lc_geom.specs.Crossing.{crosses};
ghost use Rattle.lc_geom.specs.Hits.{moved};
ghost use Rattle.lc_terms.specs.Spot.{IsSpot};
ghost use Rattle.lc_view.specs.Camera.{IsRay};
ghost use Rattle.lc_sample.specs.Scenes.{triangles_of};
ghost use Rattle.lc_sample.specs.Surfaces.{IsSurface};
ghost use Rattle.lc_sample.specs.Spots.{IsHit, lifted, mirrored, mirrored_part, mirrored_view, off_surface, part_at, place_at, spot_on};
ghost use Rattle.lc_sample.specs.Sampled.{spot_of as spot_by};

use crate::normal::{NORMAL_LENGTH, facing, normal_at};
use crate::scene::Scene;
use crate::surface::Surface;
use lc_geom::Hit;
use lc_num::{Vec3, difference, dot, scaled};
use lc_terms::Spot;
use lc_view::Ray;

/// The greatest coordinate of a spot.
const MOST: i64 = 50_100_000;

/// The part `depth/2^30` of a way, rounded down.
fn part_at(depth: u32, way: i64) -> i64
    requires depth { depth < 2 ^ 30 }
    requires way { unsigned_abs way ≤ 2 ^ 29 }
    ensures value { result ≡ part_at depth way }
    ensures most { unsigned_abs result ≤ 2 ^ 29 }
{
    (way * i64::from(depth)).div_euclid(1_073_741_824)
}

/// The place on a ray at a depth.
fn place_at(ray: Ray, depth: u32) -> Vec3
    requires ray { IsRay ray }
    requires depth { depth < 2 ^ 30 }
    ensures value { result ≡ place_at ray depth }
    ensures within { Within (2 ^ 30) result }
{
    Vec3 {
        x: ray.e.x + part_at(depth, ray.d.x),
        y: ray.e.y + part_at(depth, ray.d.y),
        z: ray.e.z + part_at(depth, ray.d.z),
    }
}

/// How far a coordinate moves where a place moves along 16/16384 of a normal, toward zero.
fn lift(normal: i64) -> i64
    requires { unsigned_abs normal ≤ 16384 }
    ensures value { result ≡ int_div (normal *ℤ pos 16) (pos 16384) }
    ensures most { unsigned_abs result ≤ 16 }
{
    normal * 16 / 16_384
}

/// A coordinate, moved off the surface along 16/16384 of a normal, and kept in the range of spots.
fn lifted(at: i64, normal: i64) -> i64
    requires at { unsigned_abs at ≤ 2 ^ 30 }
    requires normal { unsigned_abs normal ≤ 16384 }
    ensures value { result ≡ lifted at normal }
    ensures most { unsigned_abs result ≤ 50_100_000 }
{
    (at + lift(normal)).clamp(-MOST, MOST)
}

fn off_surface(place: Vec3, normal: Vec3) -> Vec3
    requires place { Within (2 ^ 30) place }
    requires normal { Within 16384 normal }
    ensures value { result ≡ off_surface place normal }
    ensures within { Within 50_100_000 result }
{
    Vec3 {
        x: lifted(place.x, normal.x),
        y: lifted(place.y, normal.y),
        z: lifted(place.z, normal.z),
    }
}

fn mirrored_part(turned: i64, squared: i64, n: i64, w: i64) -> i64
    requires turned { unsigned_abs turned ≤ 2 ^ 30 }
    requires squared { unsigned_abs squared ≤ 2 ^ 30 }
    requires n { unsigned_abs n ≤ 16384 }
    requires w { unsigned_abs w ≤ 16384 }
    ensures value { result ≡ mirrored_part turned squared n w }
    ensures most { unsigned_abs result ≤ 2 ^ 60 }
{
    2 * turned * n - squared * w
}

/// The dot product of vectors of at most 16384 in each component.
fn dot_of_normals(a: Vec3, b: Vec3) -> i64
    requires a { Within 16384 a }
    requires b { Within 16384 b }
    ensures value { result ≡ dot a b }
    ensures most { unsigned_abs result ≤ 2 ^ 30 }
{
    dot(a, b) as i64
}

/// A vector mirrored at a normal, of no given length.
fn mirrored(n: Vec3, w: Vec3) -> Vec3
    requires n { Within 16384 n }
    requires w { Within 16384 w }
    ensures value { result ≡ mirrored n w }
    ensures within { Within (2 ^ 60) result }
{
    let turned = dot_of_normals(n, w);
    let squared = dot_of_normals(n, n);
    Vec3 {
        x: mirrored_part(turned, squared, n.x, w.x),
        y: mirrored_part(turned, squared, n.y, w.y),
        z: mirrored_part(turned, squared, n.z, w.z),
    }
}

/// The view from a place to the eye, mirrored at a normal.
fn mirrored_view(eye: Vec3, place: Vec3, normal: Vec3) -> Vec3
    requires eye { Within 50_100_000 eye }
    requires place { Within 50_100_000 place }
    requires normal { Within 16384 normal }
    ensures value { result ≡ mirrored_view eye place normal }
    ensures within { Within 16384 result }
{
    let view = scaled(difference(eye, place), NORMAL_LENGTH);
    scaled(mirrored(normal, view), NORMAL_LENGTH)
}

/// The spot of a hit at a depth on a surface.
fn spot_on(ray: Ray, depth: u32, surface: &Surface) -> Spot
    requires ray { IsRay ray }
    requires depth { depth < 2 ^ 30 }
    requires surface { IsSurface surface.now }
    requires crosses { crosses ray.e (moved ray.e ray.d) surface.now.tri ≡ true }
    ensures value { result ≡ spot_on ray depth surface.now }
    ensures valid { IsSpot result }
{
    let seen = facing(ray.e, &surface.tri);
    let x = off_surface(place_at(ray, depth), seen);
    let n = normal_at(ray, surface, seen);
    Spot {
        x,
        n,
        r: mirrored_view(ray.e, x, n),
        kd: surface.reflectance.kd,
        ks: surface.reflectance.ks,
        ns: surface.reflectance.ns,
    }
}

/// The spot of a ray's hit on a scene: the place of the hit, moved off the surface along 16/16384 of the triangle's
/// normal on the side of the ray's beginning; the normal there, which is that between the normals of the triangle's
/// corners where each has one, turned to that side, and else the triangle's own; the view to the ray's beginning,
/// mirrored at the normal; and how the surface sends light back.
pub fn spot_of(scene: &Scene, ray: Ray, hit: Hit) -> Spot
    requires ray { IsRay ray }
    requires hit { IsHit (triangles_of scene.now) ray hit }
    ensures value { spot_by scene.now ray hit ≡ Some result }
    ensures valid { IsSpot result }
{
    spot_on(ray, hit.depth, &scene.surface(hit.number))
}
