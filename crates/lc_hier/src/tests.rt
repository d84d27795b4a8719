// Hits and blocked segments of a list, and boxes that a segment misses, worked out by hand.
ghost use Rattle.std.specs.Prelude.{◌≤◌, length};
ghost use Rattle.lc_geom.specs.Triangles.{IsTri};

use super::*;
use crate::beam::Beam;
use crate::bounds::{Bounds, Corner};
use lc_geom::{Hit, Tri, Triangles};
use lc_num::{List, Memory, Vec3};
use std::alloc::Global;
use std::test::*;

/// The triangle of the worked scene, as high as a digit says in metres above -1.
fn at_height(digit: u8) -> Tri
    ensures { IsTri result }
{
    let z = 10_000 * digit as i64 - 490_000;
    Tri {
        a: Vec3 {
            x: -10_000,
            y: -10_000,
            z,
        },
        b: Vec3 {
            x: 10_000,
            y: -10_000,
            z,
        },
        c: Vec3 { x: 0, y: 10_000, z },
    }
}

/// A list of such triangles.
fn stack(alloc: Global, heights: &[u8]) -> Result<Plain, Memory>
    requires { length heights.now ≤ 3 }
{
    let mut list = List::new(alloc);
    for height in heights {
        list.push(at_height(*height))?;
    }
    Ok(Plain::new(list))
}

/// What the rays down and up from an eye at 5 hit first, and whether the way from it down to -1 is blocked.
fn seen(list: &Plain) -> (Option<Hit>, Option<Hit>, bool) {
    let eye = Vec3 {
        x: 0,
        y: 0,
        z: 50_000,
    };
    let down = Vec3 {
        x: 0,
        y: 0,
        z: -268_435_456,
    };
    let up = Vec3 {
        x: 0,
        y: 0,
        z: 268_435_456,
    };
    let low = Vec3 {
        x: 0,
        y: 0,
        z: -10_000,
    };
    (
        list.nearest(eye, down),
        list.nearest(eye, up),
        list.blocked(eye, low),
    )
}

fn hit(depth: u32, number: u32) -> Option<Hit> {
    Some(Hit { depth, number })
}

#[test]
fn first_hits(rt: HostRuntime) -> Result<(), Fail> {
    // Of two triangles at one place the first is hit, wherever a farther one stands. The way ends on the lowest.
    for (heights, first, is_blocked) in [
        (b"110".as_slice(), hit(200_000, 0), true),
        (b"011", hit(200_000, 1), true),
        (b"001", hit(200_000, 2), true),
        (b"000", hit(240_000, 0), false),
        (b"11", hit(200_000, 0), true),
        (b"", None, false),
    ] {
        assert!(rt; heights.len() <= 3);
        let list = stack(rt.alloc(), heights)?;
        assert_eq!(rt; seen(&list), (first, None, is_blocked), "{heights:?}");
    }
    Ok(())
}

/// A place or a corner, by its coordinates.
type Place = (i32, i32, i32);

fn corner((x, y, z): Place) -> Corner {
    Corner { x, y, z }
}

fn misses(beam: &Beam, low: Place, high: Place) -> bool {
    beam.misses(&Bounds {
        low: corner(low),
        high: corner(high),
    })
}

#[test]
fn missed_boxes(rt: HostRuntime) {
    let start = Vec3 { x: 0, y: 0, z: 0 };
    let end = Vec3 {
        x: 100_000,
        y: 50_000,
        z: -20_000,
    };
    let whole = Beam::new(start, end);
    // Only its first half matters.
    let mut half = whole;
    half.shorten(536_870_911);
    // A long segment that leads back along an axis, and hardly along another.
    let far = Vec3 {
        x: 300_000_000,
        y: 1,
        z: -300_000_000,
    };
    let sun = Beam::new(start, far);
    // Whether each of the three misses the box.
    for (low, high, wanted) in [
        // Round the middle of the first segment, beside it, behind its start and beyond its end.
        (
            (40_000, 20_000, -12_000),
            (60_000, 30_000, -8_000),
            (false, false, true),
        ),
        (
            (40_000, 31_000, -12_000),
            (60_000, 40_000, -8_000),
            (true, true, true),
        ),
        (
            (-20_000, -10_000, 2_000),
            (-10_000, -5_000, 4_000),
            (true, true, true),
        ),
        (
            (101_000, 40_000, -30_000),
            (120_000, 60_000, -10_000),
            (true, true, true),
        ),
        // On its second half.
        (
            (52_000, 24_000, -14_000),
            (60_000, 32_000, -8_000),
            (false, true, true),
        ),
        // On the long segment, above it and aside of it.
        (
            (40_000, 0, -60_000),
            (50_000, 0, -45_000),
            (true, true, false),
        ),
        (
            (40_000, 5_000, -60_000),
            (50_000, 6_000, -45_000),
            (true, true, true),
        ),
        (
            (40_000, 0, -70_000),
            (50_000, 0, -55_000),
            (true, true, true),
        ),
    ] {
        assert_eq!(rt;
            (
                misses(&whole, low, high),
                misses(&half, low, high),
                misses(&sun, low, high)
            ),
            wanted,
            "the box from {low:?} to {high:?}"
        );
    }
}
