// Rounds over the inputs.
ghost use Rattle.std.specs.Prelude.{◌≡◌, ◌+◌, ◌%◌, ◌^◌, sum_by};
ghost use Rattle.bench_geom.specs.Sums.{depth_sum, mark_if_blocked, mark_if_covered};

use crate::inputs::{Ray, Segment};
use lc_geom::{Triangles, blocks, depth};
use lc_hier::Plain;

fn add_blocked(sum: u64, segments: &[Segment]) -> u64
    ensures { result ≡ (sum + sum_by mark_if_blocked segments.now) % 2 ^ 64 }
{
    let mut total = sum;
    for s in segments {
        if blocks(s.p, s.q, &s.triangle) {
            total = total.wrapping_add(s.mark as u64);
        }
    }
    total
}

fn add_depths(sum: u64, rays: &[Ray]) -> u64
    ensures { result ≡ (sum + sum_by depth_sum rays.now) % 2 ^ 64 }
{
    let mut total = sum;
    for ray in rays {
        if let Some(depth) = depth(ray.e, ray.d, &ray.triangle) {
            total = total.wrapping_add(depth as u64);
        }
    }
    total
}

fn add_covered(sum: u64, room: &Plain, segments: &[Segment]) -> u64
    ensures { result ≡ (sum + sum_by (mark_if_covered room.now) segments.now) % 2 ^ 64 }
{
    let mut total = sum;
    for s in segments {
        if room.blocked(s.p, s.q) {
            total = total.wrapping_add(s.mark as u64);
        }
    }
    total
}

/// The marks of the segments that their triangles block, added up in all rounds.
pub fn blocked(rounds: u32, segments: &[Segment]) -> u64 {
    let mut sum = 0;
    for _ in 0..rounds {
        sum = add_blocked(sum, segments);
    }
    sum
}

/// The depths at which rays hit their triangles, added up in all rounds.
pub fn depths(rounds: u32, rays: &[Ray]) -> u64 {
    let mut sum = 0;
    for _ in 0..rounds {
        sum = add_depths(sum, rays);
    }
    sum
}

/// The marks of the segments that some triangle of a list blocks, added up in all rounds.
pub fn covered(rounds: u32, room: &Plain, segments: &[Segment]) -> u64 {
    let mut sum = 0;
    for _ in 0..rounds {
        sum = add_covered(sum, room, segments);
    }
    sum
}
