// Rounds over the inputs.
ghost use Rattle.std.specs.Prelude.{◌≡◌, ◌+◌, ◌%◌, ◌^◌, sum_by};
ghost use Rattle.bench_hier.specs.Sums.{first_hit_sum, one_if_blocked};

use crate::inputs::{Ray, Segment};
use lc_geom::Triangles;
use lc_hier::Hier;

/// No more triangles are counted.
const MOST_TESTS: u64 = 1 << 63;

fn add_blocked(sum: u64, room: &Hier, segments: &[Segment]) -> u64
    ensures { result ≡ (sum + sum_by (one_if_blocked room.now) segments.now) % 2 ^ 64 }
{
    let mut total = sum;
    for s in segments {
        if room.blocked(s.p, s.q) {
            total = total.wrapping_add(1);
        }
    }
    total
}

fn add_hits(sum: u64, room: &Hier, rays: &[Ray]) -> u64
    ensures { result ≡ (sum + sum_by (first_hit_sum room.now) rays.now) % 2 ^ 64 }
{
    let mut total = sum;
    for ray in rays {
        if let Some(hit) = room.nearest(ray.e, ray.d) {
            total = total.wrapping_add(hit.depth as u64 + hit.number as u64);
        }
    }
    total
}

/// How many segments a triangle blocks, in all rounds.
pub fn blocked(rounds: u32, room: &Hier, segments: &[Segment]) -> u64 {
    let mut sum = 0;
    for _ in 0..rounds {
        sum = add_blocked(sum, room, segments);
    }
    sum
}

/// The depths and the numbers of the first hits of rays, added up in all rounds.
pub fn hits(rounds: u32, room: &Hier, rays: &[Ray]) -> u64 {
    let mut sum = 0;
    for _ in 0..rounds {
        sum = add_hits(sum, room, rays);
    }
    sum
}

/// How many triangles are tested for the segments.
pub fn tests(room: &Hier, segments: &[Segment]) -> u64 {
    let mut tests = 0;
    for s in segments {
        if tests < MOST_TESTS {
            room.blocked_counting(s.p, s.q, &mut tests);
        }
    }
    tests
}
