// What is answered at a spot.
use lc_num::Rgb;

/// The light at a spot, per channel. One unit of radiance is `65536 * 10^17`.
#[derive(Clone, Copy, Debug, PartialEq, Eq)]
pub struct Answer {
    /// How many clusters of lights were taken.
    pub size: u32,
    /// How many lights were evaluated, each as the representative of its cluster.
    pub evals: u32,
    /// The estimate of the light.
    pub est: Rgb,
    /// How far the estimate may be from the sum over all lights.
    pub bound: Rgb,
}
