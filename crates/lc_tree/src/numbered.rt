// Lights with their numbers, and the order in which they are halved.
ghost use Rattle.std.specs.Prelude.{◌≡◌, ◌<◌, All, length, IsPermutation};
ghost use Rattle.std.specs.List.Sorted.{IsSortedBy};
ghost use Rattle.lc_num.specs.Vectors.{Within};
ghost use Rattle.lc_tree.specs.Build.{comes_before};
ghost use Rattle.lc_tree.specs.Extents.{longest, longest_axis, AreExtents};

use crate::axis::Axis;
use lc_num::{Vec3, difference, greater, lesser};

/// A light with its number and its place.
#[derive(Clone, Copy)]
pub(crate) struct Numbered<L> {
    pub(crate) number: u32,
    pub(crate) place: Vec3,
    pub(crate) light: L,
}

/// On each axis the greatest less the least coordinate of the lights' places.
fn extents<L: Copy>(lights: &[Numbered<L>]) -> Vec3
    requires some { 0 < length lights.now }
    requires places { All (λ e. Within 50_000_000 e.place) lights.now }
    ensures { AreExtents lights.now result }
{
    let mut least = lights[0].place;
    let mut most = least;
    for light in &lights[1..] {
        least = lesser(least, light.place);
        most = greater(most, light.place);
    }
    difference(most, least)
}

fn longest(extents: Vec3) -> Axis
    ensures { result ≡ longest extents }
{
    if extents.y <= extents.x && extents.z <= extents.x {
        Axis::X
    } else if extents.z <= extents.y {
        Axis::Y
    } else {
        Axis::Z
    }
}

/// The axis on which the lights extend the longest.
pub(crate) fn longest_axis<L: Copy>(lights: &[Numbered<L>]) -> Axis
    requires some { 0 < length lights.now }
    requires places { All (λ e. Within 50_000_000 e.place) lights.now }
    ensures { result ≡ longest_axis lights.now }
{
    longest(extents(lights))
}

/// Puts the lights in order of their coordinates on an axis, and then of their numbers.
pub(crate) fn sort_along<L: Copy>(lights: &mut [Numbered<L>], axis: Axis)
    ensures permutation { IsPermutation lights.old lights.new }
    ensures sorted { IsSortedBy (comes_before axis) lights.new }
{
    lights.sort_unstable_by_key(|light| (axis.coordinate(light.place), light.number));
}
