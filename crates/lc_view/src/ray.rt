// Rays through the samples of a picture.
ghost use Rattle.std.specs.Prelude.{◌≡◌, ◌+◌, ◌*◌, ◌^◌, ◌<◌, ◌≤◌, pos, ◌+ℤ◌, ◌*ℤ◌, unsigned_abs};
ghost use Rattle.lc_num.specs.Vectors.{Within};
ghost use Rattle.lc_view.specs.Camera.{IsCamera, IsRay, combined, offset_right, offset_up, ray_of};

use crate::camera::{Basis, Camera, axes};
use lc_num::{Vec3, scaled};

const RAY_LENGTH: u64 = 1 << 28;

/// A ray: the segment from a place `e`, in units of 1/10000, to `e + d`. A valid one has components of `e` of at most
/// 50,100,000 and of `e + d` of at most 320,000,000.
#[derive(Clone, Copy, Debug, PartialEq, Eq)]
pub struct Ray {
    pub e: Vec3,
    pub d: Vec3,
}

/// How many samples stand side by side in `pixels` pixels.
fn span(pixels: u32, grid: u32) -> u32
    requires pixels { pixels ≤ 4096 }
    requires grid { grid ≤ 16 }
    ensures value { result ≡ pixels * grid }
    ensures most { result ≤ 65_536 }
{
    pixels * grid
}

/// How far the middle of a sample is from the picture's edge, in halves of a sample.
fn middle(pixel: u32, sample: u32, pixels: u32, grid: u32) -> u32
    requires pixels { pixels ≤ 4096 }
    requires grid { grid ≤ 16 }
    requires pixel { pixel < pixels }
    requires sample { sample < grid }
    ensures value { result ≡ 2 * (pixel * grid + sample) + 1 }
    ensures below { result < 2 * (pixels * grid) }
{
    2 * (pixel * grid + sample) + 1
}

/// How far a sample lies to the right of the picture's middle, in halves of a sample.
fn offset_right(camera: &Camera, col: u32, a: u32) -> i64
    requires camera { IsCamera camera.now }
    requires col { col < camera.now.width }
    requires a { a < camera.now.grid }
    ensures value { result ≡ offset_right camera.now col a }
    ensures most { unsigned_abs result ≤ 65_536 }
{
    let from_left = i64::from(middle(col, a, camera.width, camera.grid));
    from_left - i64::from(span(camera.width, camera.grid))
}

/// How far a sample lies above the picture's middle, in halves of a sample.
fn offset_up(camera: &Camera, row: u32, b: u32) -> i64
    requires camera { IsCamera camera.now }
    requires row { row < camera.now.height }
    requires b { b < camera.now.grid }
    ensures value { result ≡ offset_up camera.now row b }
    ensures most { unsigned_abs result ≤ 65_536 }
{
    let from_top = i64::from(middle(row, b, camera.height, camera.grid));
    i64::from(span(camera.height, camera.grid)) - from_top
}

/// An offset in the picture at the distance for which `view` is half the width.
fn widened(offset: i64, view: u64) -> i64
    requires offset { unsigned_abs offset ≤ 65_536 }
    requires view { view ≤ 100_000 }
    ensures value { result ≡ offset *ℤ pos view }
    ensures most { unsigned_abs result ≤ 6_553_600_000 }
{
    offset * view as i64
}

/// One component of three directions, each times its number, together.
fn component(forward: i64, depth: i64, right: i64, x: i64, up: i64, y: i64) -> i64
    requires forward { unsigned_abs forward ≤ 16384 }
    requires depth { unsigned_abs depth ≤ 655_360_000 }
    requires right { unsigned_abs right ≤ 16384 }
    requires x { unsigned_abs x ≤ 6_553_600_000 }
    requires up { unsigned_abs up ≤ 16384 }
    requires y { unsigned_abs y ≤ 6_553_600_000 }
    ensures value { result ≡ forward *ℤ depth +ℤ right *ℤ x +ℤ up *ℤ y }
    ensures most { unsigned_abs result ≤ 2 ^ 60 }
{
    forward * depth + right * x + up * y
}

/// The three directions, each times its number, together.
fn combined(basis: &Basis, depth: i64, x: i64, y: i64) -> Vec3
    requires forward { Within 16384 basis.now.forward }
    requires right { Within 16384 basis.now.right }
    requires up { Within 16384 basis.now.up }
    requires depth { unsigned_abs depth ≤ 655_360_000 }
    requires x { unsigned_abs x ≤ 6_553_600_000 }
    requires y { unsigned_abs y ≤ 6_553_600_000 }
    ensures value { result ≡ combined basis.now.forward depth basis.now.right x basis.now.up y }
    ensures within { Within (2 ^ 60) result }
{
    Vec3 {
        x: component(basis.forward.x, depth, basis.right.x, x, basis.up.x, y),
        y: component(basis.forward.y, depth, basis.right.y, x, basis.up.y, y),
        z: component(basis.forward.z, depth, basis.right.z, x, basis.up.z, y),
    }
}

/// The ray from the camera's eye through a sample of the picture: the one in grid column `a` and grid row `b` of the
/// pixel in column `col` and row `row`. Columns are counted from the left and rows from the top, each from 0. `d` has
/// the length 2^28, rounded down in each component; it is zero where `at` is the eye.
pub fn ray_of(camera: &Camera, col: u32, row: u32, a: u32, b: u32) -> Ray
    requires camera { IsCamera camera.now }
    requires col { col < camera.now.width }
    requires row { row < camera.now.height }
    requires a { a < camera.now.grid }
    requires b { b < camera.now.grid }
    ensures value { result ≡ ray_of camera.now col row a b }
    ensures valid { IsRay result }
{
    let basis = axes(camera);
    let depth = i64::from(span(camera.width, camera.grid) * 10_000);
    let x = widened(offset_right(camera, col, a), camera.view);
    let y = widened(offset_up(camera, row, b), camera.view);
    Ray {
        e: camera.eye,
        d: scaled(combined(&basis, depth, x, y), RAY_LENGTH),
    }
}
