// Cameras, and the directions in which they look.
ghost use Rattle.std.specs.Prelude.{◌≡◌};
ghost use Rattle.lc_num.specs.Vectors.{Within};
ghost use Rattle.lc_view.specs.Camera.{IsCamera, forward_of, right_of, up_of};

use lc_num::{Vec3, cross, difference, scaled};

/// A camera, and how fine the picture is that it takes. Its places and directions have components from -5000.0000 to
/// 5000.0000, in units of 1/10000.
#[derive(Clone, Copy, Debug, PartialEq, Eq)]
pub struct Camera {
    /// The place from which it looks.
    pub eye: Vec3,
    /// The place in the middle of the picture.
    pub at: Vec3,
    /// A direction that points to the top of the picture. It need not be at right angles to the way to `at`.
    pub up: Vec3,
    /// Half the width of what it sees at the distance 1, in units of 1/10000: 0.0001 to 10.0000.
    pub view: u64,
    /// The picture's width in pixels, 1 to 4096.
    pub width: u32,
    /// The picture's height in pixels, 1 to 4096.
    pub height: u32,
    /// How many columns and how many rows of samples a pixel has, 1 to 16.
    pub grid: u32,
}

/// The directions of a camera, each of length 16384: the way in which it looks, and the right and the top of its
/// picture.
#[derive(Clone, Copy)]
pub(crate) struct Basis {
    pub forward: Vec3,
    pub right: Vec3,
    pub up: Vec3,
}

/// The directions of a camera. Where `at` is the eye all three are zero, and where `up` points along the way to `at`
/// the right and the top are.
pub(crate) fn axes(camera: &Camera) -> Basis
    requires { IsCamera camera.now }
    ensures forward { result.forward ≡ forward_of camera.now }
    ensures right { result.right ≡ right_of camera.now }
    ensures up { result.up ≡ up_of camera.now }
    ensures within_forward { Within 16384 result.forward }
    ensures within_right { Within 16384 result.right }
    ensures within_up { Within 16384 result.up }
{
    let way = difference(camera.at, camera.eye);
    let forward = scaled(way, 16_384);
    let right = scaled(cross(way, camera.up), 16_384);
    let up = scaled(cross(right, forward), 16_384);
    Basis { forward, right, up }
}
