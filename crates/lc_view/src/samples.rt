// The samples of a picture by their numbers.
ghost use Rattle.std.specs.Prelude.{◌≡◌, ◌*◌, ◌/◌, ◌%◌, ◌<◌, ◌≤◌, Some, slice_get};
ghost use Rattle.lc_view.specs.Camera.{IsCamera, IsRay};
ghost use Rattle.lc_view.specs.Samples.{ray_at, sample_count, sample_rays};

use crate::camera::Camera;
use crate::ray::{Ray, ray_of};

/// The ray through the sample of a number in a pixel. A pixel's samples are numbered from 0, by the rows of its grid
/// from the top, and of each its columns from the left.
fn ray_in_pixel(camera: &Camera, row: u32, col: u32, place: u32) -> Ray
    requires camera { IsCamera camera.now }
    requires row { row < camera.now.height }
    requires col { col < camera.now.width }
    requires place { place < camera.now.grid * camera.now.grid }
    ensures value { result ≡ ray_at camera.now row col place }
    ensures valid { IsRay result }
{
    ray_of(camera, col, row, place % camera.grid, place / camera.grid)
}

/// The ray through the sample of a number. The samples of a picture are numbered from 0, by the rows of the picture
/// from the top, of each its pixels from the left, of each the rows of its grid from the top, of each its columns
/// from the left.
pub fn ray_of_sample(camera: &Camera, sample: u64) -> Ray
    requires camera { IsCamera camera.now }
    requires sample { sample < sample_count camera.now }
    ensures value { slice_get (sample_rays camera.now) sample ≡ Some result }
    ensures valid { IsRay result }
{
    let each = u64::from(camera.grid * camera.grid);
    let (pixel, place) = (sample / each, sample % each);
    let width = u64::from(camera.width);
    ray_in_pixel(
        camera,
        (pixel / width) as u32,
        (pixel % width) as u32,
        place as u32,
    )
}
