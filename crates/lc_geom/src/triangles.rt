// Lists of triangles that segments and rays are tested against.
ghost use Rattle.std.specs.Prelude.{◌≡◌};
ghost use Rattle.lc_num.specs.Vectors.{Within};
ghost use Rattle.lc_geom.specs.Hits.{blocked, moved, nearest};

use crate::hit::Hit;
use lc_num::Vec3;

/// A list of triangles in a form that answers which of them a segment or a ray meets. The components of a segment's
/// or a ray's beginning are at most 50,100,000, and those of its end at most 320,000,000.
pub trait Triangles {
    ghost use Rattle.std.specs.Prelude.{List};
    ghost use Rattle.lc_geom.specs.declared.triangle.Tri.{Tri};

    /// The triangles by their numbers.
    ghost list: { Self → List Tri };

    /// Whether a triangle of the list blocks the segment from `p` to `q`.
    fn blocked(&self, p: Vec3, q: Vec3) -> bool
        requires p { Within 50_100_000 p }
        requires q { Within 320_000_000 q }
        ensures { result ≡ blocked p q (list self.now) };

    /// The first hit of the ray from `e` along `d`: the one of least depth, and of one depth that of the least number.
    /// None exactly where the ray hits no triangle of the list.
    fn nearest(&self, e: Vec3, d: Vec3) -> Option<Hit>
        requires e { Within 50_100_000 e }
        requires end { Within 320_000_000 (moved e d) }
        ensures { result ≡ nearest e d (list self.now) };
}
