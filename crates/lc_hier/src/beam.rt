// Segments, ready for boxes.
ghost use Rattle.std.specs.Prelude.{◌≡◌, ◌+◌, ◌*◌, ◌^◌, ◌<◌, ◌≤◌, pos, ◌+ℤ◌, ◌-ℤ◌, IsTrue, int_lt};
ghost use Rattle.lc_num.specs.Vectors.{Within};
ghost use Rattle.lc_geom.specs.declared.triangle.Tri.{Tri};
ghost use Rattle.lc_hier.specs.Boxes.{Holds};
ghost use Rattle.lc_hier.specs.Passed.{IsPassed};
ghost use Rattle.lc_hier.specs.Slabs.{Serves};

use crate::bounds::Bounds;
use crate::slab::{Slab, WHOLE};
use lc_num::Vec3;

/// A segment, and the depth up to which it matters what it crosses.
#[derive(Clone, Copy)]
pub(crate) struct Beam {
    pub(crate) start: Vec3,
    pub(crate) end: Vec3,
    /// In 1/2^30 of the segment.
    pub(crate) most: u32,
    /// Places along the segment are in units of `1 / (WHOLE << shift)` of it.
    shift: u32,
    /// The last place of depth `most`.
    last: i64,
    x: Slab,
    y: Slab,
    z: Slab,
    ghost most_small: { most < 2 ^ 30 },
    ghost shift_small: { shift ≤ 12 },
    ghost last_is: { last +ℤ pos 1 ≡ pos ((most + 1) * 2 ^ shift) },
    ghost x_serves: { Serves (2 ^ (30 + shift)) start.x end.x x },
    ghost y_serves: { Serves (2 ^ (30 + shift)) start.y end.y y },
    ghost z_serves: { Serves (2 ^ (30 + shift)) start.z end.z z },
}

/// How many bits a segment's lengths on the axes have beyond 18, so that few bits of them are lost.
#[inline(always)]
fn shift_of(p: Vec3, q: Vec3) -> u32
    requires p { Within 50_100_000 p }
    requires q { Within 320_000_000 q }
    ensures { result ≤ 12 }
{
    let longest = q
        .x
        .abs_diff(p.x)
        .max(q.y.abs_diff(p.y))
        .max(q.z.abs_diff(p.z));
    (longest >> 17).max(1).ilog2()
}

/// The last place of a depth.
#[inline(always)]
fn last_of(most: u32, shift: u32) -> i64
    requires most { most < 2 ^ 30 }
    requires shift { shift ≤ 12 }
    ensures { result +ℤ pos 1 ≡ pos ((most + 1) * 2 ^ shift) }
{
    (((most as u64 + 1) << shift) - 1) as i64
}

impl Beam {
    /// From `p`, of which the components are at most 50,100,000, to `q`, of which they are at most 320,000,000. All
    /// that the segment crosses matters.
    #[inline(always)]
    pub(crate) fn new(p: Vec3, q: Vec3) -> Beam
        requires p { Within 50_100_000 p }
        requires q { Within 320_000_000 q }
        ensures start { result.start ≡ p }
        ensures end { result.end ≡ q }
        ensures most { result.most ≡ 1_073_741_823 }
    {
        Beam::toward(p, q, (q.x < p.x, q.y < p.y, q.z < p.z))
    }

    /// The same, where it is known on which axes the segment leads to lesser coordinates.
    #[inline(always)]
    pub(crate) fn toward(p: Vec3, q: Vec3, backward: (bool, bool, bool)) -> Beam
        requires p { Within 50_100_000 p }
        requires q { Within 320_000_000 q }
        requires x { backward.0 ≡ int_lt q.x p.x }
        requires y { backward.1 ≡ int_lt q.y p.y }
        requires z { backward.2 ≡ int_lt q.z p.z }
        ensures start { result.start ≡ p }
        ensures end { result.end ≡ q }
        ensures most { result.most ≡ 1_073_741_823 }
    {
        let shift = shift_of(p, q);
        Beam {
            start: p,
            end: q,
            most: WHOLE - 1,
            shift,
            last: last_of(WHOLE - 1, shift),
            x: Slab::new(p.x, q.x, backward.0, shift),
            y: Slab::new(p.y, q.y, backward.1, shift),
            z: Slab::new(p.z, q.z, backward.2, shift),
        }
    }

    /// Whether nothing in the box matters: the segment has left it on one axis before it comes to it on another, or it
    /// ends before, or is deeper by then than matters. No processor foresees which, so there is one branch for all.
    #[inline(always)]
    pub(crate) fn misses(&self, bounds: &Bounds) -> bool
        ensures { IsTrue result → (t : Tri) → Holds bounds.now t
            → IsPassed self.now.start self.now.end self.now.most t }
    {
        let near = self
            .x
            .entry(bounds.low.x, bounds.high.x)
            .max(self.y.entry(bounds.low.y, bounds.high.y))
            .max(self.z.entry(bounds.low.z, bounds.high.z));
        let far = self
            .x
            .exit(bounds.low.x, bounds.high.x)
            .min(self.y.exit(bounds.low.y, bounds.high.y))
            .min(self.z.exit(bounds.low.z, bounds.high.z));
        (far < near) | (far < 0) | (self.last < near)
    }

    /// From now on only what is crossed up to this depth matters.
    #[inline(always)]
    pub(crate) fn shorten(&mut self, most: u32)
        requires { most < 2 ^ 30 }
        ensures start { self.new.start ≡ self.old.start }
        ensures end { self.new.end ≡ self.old.end }
        ensures most { self.new.most ≡ most }
    {
        self.last = last_of(most, self.shift);
        self.most = most;
    }
}
