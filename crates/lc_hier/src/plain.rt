// Triangles that are tested one after the other.
ghost use Rattle.std.specs.Prelude.{◌≡◌, ◌≤◌, All, length, Some};
ghost use Rattle.lc_geom.specs.Triangles.{IsTri};
ghost use Rattle.lc_hier.specs.Sooner.{sooner};

use lc_geom::{Hit, Tri, Triangles, blocks, depth};
use lc_num::{List, Vec3};
use std::marker::Model;

/// At most 1,000,000 triangles, each of which is tested.
#[derive(Drop)]
pub struct Plain {
    list: List<Tri>,
}

impl Model for Plain {
    ghost use Rattle.std.specs.Prelude.{List, ◌≤◌, All, length};
    ghost use Rattle.lc_geom.specs.declared.triangle.Tri.{Tri};
    ghost use Rattle.lc_geom.specs.Triangles.{IsTri};

    ghost Value = { List Tri };

    ghost view = { λ s. s.list };

    ghost invariant = { λ s. All IsTri s.list × (length s.list ≤ 1_000_000) };
}

impl Plain {
    /// The triangles of a list, numbered from 0.
    pub fn new(list: List<Tri>) -> Plain
        requires valid { All IsTri list }
        requires few { length list ≤ 1_000_000 }
        ensures { result ≡ list }
    {
        Plain { list }
    }

    fn triangles(&self) -> &[Tri]
        ensures same { result.now ≡ self.now }
        ensures valid { All IsTri result.now }
        ensures few { length result.now ≤ 1_000_000 }
    {
        self.list.as_slice()
    }
}

/// The first hit of those so far and that on the next triangle, if there is one.
fn sooner(best: Option<Hit>, number: u32, depth: Option<u32>) -> Option<Hit>
    ensures { result ≡ sooner best number depth }
{
    let Some(depth) = depth else {
        return best;
    };
    match best {
        Some(first) if first.depth <= depth => best,
        _ => Some(Hit { depth, number }),
    }
}

impl Triangles for Plain {
    ghost list = { λ s. s };

    fn blocked(&self, p: Vec3, q: Vec3) -> bool {
        for t in self.triangles() {
            if blocks(p, q, t) {
                return true;
            }
        }
        false
    }

    fn nearest(&self, e: Vec3, d: Vec3) -> Option<Hit> {
        let mut best = None;
        for (number, t) in self.triangles().iter().enumerate() {
            best = sooner(best, number as u32, depth(e, d, t));
        }
        best
    }
}
