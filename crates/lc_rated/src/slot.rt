// Where a bench keeps what is known of a node.
use lc_num::Rgb;

/// What is kept of a node's representative, and the node's bound.
#[derive(Clone, Copy)]
pub struct Slot<K> {
    pub kept: K,
    pub bound: Rgb,
}
