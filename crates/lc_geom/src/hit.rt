// Hits of rays on triangles.
ghost use Rattle.std.specs.Prelude.{◌≡◌, ◌^◌, ◌<◌, IfSome};
ghost use Rattle.lc_num.specs.Vectors.{Within};
ghost use Rattle.lc_geom.specs.Hits.{depth, depth_between, moved};
ghost use Rattle.lc_geom.specs.Triangles.{IsTri};

use crate::crossing::{crosses_between, sides};
use crate::triangle::Tri;
use lc_num::Vec3;

/// A hit of a ray on a triangle of a list.
#[derive(Clone, Copy, Debug, PartialEq, Eq)]
pub struct Hit {
    /// How far along the ray's segment it is, in 1/2^30 of the segment, rounded down.
    pub depth: u32,
    /// The place of the triangle in the list.
    pub number: u32,
}

/// The end of the segment of a ray from `e` along `d`. The components of `e` are at most 50,100,000, those of the end
/// at most 320,000,000.
pub fn moved(e: Vec3, d: Vec3) -> Vec3
    requires e { Within 50_100_000 e }
    requires end { Within 320_000_000 (moved e d) }
    ensures { result ≡ moved e d }
{
    Vec3 {
        x: e.x + d.x,
        y: e.y + d.y,
        z: e.z + d.z,
    }
}

/// `2^30 * s / (s + r)`, rounded down.
fn depth_between(s: u128, r: u128) -> u32
    requires s { s < 2 ^ 87 }
    requires r { r < 2 ^ 87 }
    requires some { 0 < r }
    ensures value { result ≡ depth_between s r }
    ensures small { result < 2 ^ 30 }
{
    (1_073_741_824 * s / (s + r)) as u32
}

/// The depth at which the ray from `e` along `d` hits the triangle; none exactly where the triangle does not block the
/// segment from `e` to `e + d`. With `s` and `r` the absolute sides of the segment's beginning and end it is
/// `2^30 * s / (s + r)`, rounded down. The components of `e` are at most 50,100,000, those of `e + d` at most
/// 320,000,000.
pub fn depth(e: Vec3, d: Vec3, t: &Tri) -> Option<u32>
    requires e { Within 50_100_000 e }
    requires end { Within 320_000_000 (moved e d) }
    requires t { IsTri t.now }
    ensures value { result ≡ depth e d t.now }
    ensures small { IfSome result (λ depth. depth < 2 ^ 30) }
{
    let q = moved(e, d);
    let (start, end) = sides(e, q, t);
    if crosses_between(e, q, t, start, end) {
        Some(depth_between(start.unsigned_abs(), end.unsigned_abs()))
    } else {
        None
    }
}
