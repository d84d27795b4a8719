// What a node of a light tree gives at a spot.
use lc_num::Rgb;

/// What a node gives at a spot, per channel. One unit of radiance is `65536 * 10^17`.
#[derive(Clone, Copy, Debug, PartialEq, Eq)]
pub struct NodeLight {
    /// The estimate of the light of all lights below the node.
    pub est: Rgb,
    /// How far the estimate may be from that light.
    pub bound: Rgb,
}
