// What a hierarchy of boxes answers.
ghost use Rattle.std.specs.Prelude.{◌≡◌, ◌+◌, ◌<◌, ◌≤◌, ◌^◌, ◌↔◌, All, IsTrue, length, if◌then◌else◌, nat_lt};
ghost use Rattle.lc_num.specs.Vectors.{Within};
ghost use Rattle.lc_geom.specs.Hits.{blocked};
ghost use Rattle.lc_geom.specs.Triangles.{IsTri};
ghost use Rattle.lc_hier.specs.Seen.{IsBlocker};

use crate::hier::Hier;
use crate::node::Row;
use crate::walk::{blocker, nearest};
use lc_geom::{Hit, Triangles, blocks};
use lc_num::Vec3;

/// Whether the triangle of the row at this place blocks the segment, if there is one. The test counts.
fn is_blocked_by(rows: &[Row], known: u32, p: Vec3, q: Vec3, tests: &mut u64) -> bool
    requires p { Within 50_100_000 p }
    requires q { Within 320_000_000 q }
    requires valid { All (λ row. IsTri row.triangle) rows.now }
    requires few { tests.old + 1 < 2 ^ 64 }
    ensures blocks { IsTrue result ↔ IsBlocker p q rows.now known }
    ensures counted { tests.new ≡ tests.old + (if nat_lt known (length rows.now) then 1 else 0) }
{
    match rows.get(known as usize) {
        None => false,
        Some(row) => {
            *tests += 1;
            blocks(p, q, &row.triangle)
        }
    }
}

impl Hier {
    /// Whether a triangle of the list blocks the segment from `p` to `q`, as `blocked` says, with a count, at most
    /// 2^63, that is raised by one for each triangle that is tested: no triangle is tested twice. The components of
    /// `p` are at most 50,100,000, those of `q` at most 320,000,000.
    pub fn blocked_counting(&self, p: Vec3, q: Vec3, tests: &mut u64) -> bool
        requires p { Within 50_100_000 p }
        requires q { Within 320_000_000 q }
        requires few { tests.old ≤ 2 ^ 63 }
        ensures value { result ≡ blocked p q self.now }
        ensures more { tests.old ≤ tests.new }
        ensures most { tests.new ≤ tests.old + length self.now }
        ensures some { IsTrue result → tests.old < tests.new }
    {
        let known = self.recent.row(p, q);
        if is_blocked_by(&self.rows, known, p, q, tests) {
            return true;
        }
        let found = blocker(&self.nodes, &self.rows, p, q, known, tests);
        self.recent.keep(p, q, found);
        found.is_some()
    }
}

impl Triangles for Hier {
    ghost list = { λ h. h };

    fn blocked(&self, p: Vec3, q: Vec3) -> bool {
        self.blocked_counting(p, q, &mut 0)
    }

    fn nearest(&self, e: Vec3, d: Vec3) -> Option<Hit> {
        nearest(&self.nodes, &self.rows, e, d)
    }
}
