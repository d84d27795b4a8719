// How much each corner of a triangle counts where a segment crosses it.
ghost use Rattle.std.specs.Prelude.{◌≡◌, ◌+◌, ◌^◌, ◌<◌, true};
ghost use Rattle.lc_num.specs.Vectors.{Within};
ghost use Rattle.lc_geom.specs.Crossing.{crosses};
ghost use Rattle.lc_geom.specs.Triangles.{IsTri};
ghost use Rattle.lc_geom.specs.Weights.{sum_of, weights_of};

use crate::crossing::{sides, three_volumes};
use crate::triangle::Tri;
use lc_num::Vec3;

/// How much each corner of a triangle counts at a point of it, in no given unit: its barycentric coordinates.
#[derive(Clone, Copy, Debug, PartialEq, Eq)]
pub struct Weights {
    pub a: u128,
    pub b: u128,
    pub c: u128,
}

/// How much each corner counts where the segment from `p` to `q` crosses the triangle: the volume between the segment
/// and the side opposite to the corner. The components of `p` are at most 50,100,000, those of `q` at most
/// 320,000,000.
pub fn weights_of(p: Vec3, q: Vec3, t: &Tri) -> Weights
    requires p { Within 50_100_000 p }
    requires q { Within 320_000_000 q }
    requires t { IsTri t.now }
    requires crosses { crosses p q t.now ≡ true }
    ensures value { result ≡ weights_of p q t.now }
    ensures some { 0 < sum_of result }
    ensures most { sum_of result < 2 ^ 92 }
{
    let (start, end) = sides(p, q, t);
    let (ab, bc, ca) = three_volumes(p, q, t, start, end);
    Weights {
        a: bc.unsigned_abs(),
        b: ca.unsigned_abs(),
        c: ab.unsigned_abs(),
    }
}
