// The rows in which a hierarchy keeps its boxes and its triangles.
use crate::bounds::Bounds;
use lc_geom::Tri;

/// A box of the hierarchy. Nodes stand in preorder, and behind the last stands one that has no rows. A node is a leaf
/// where the node after its subtree is the next one. 32 bytes.
#[derive(Clone, Copy)]
pub(crate) struct Node {
    pub(crate) bounds: Bounds,
    /// The node after its subtree.
    pub(crate) skip: u32,
    /// Its first row. Its rows end where those of the node after its subtree begin.
    pub(crate) first: u32,
}

/// A triangle in the order of the leaves, and its number in the list.
#[derive(Clone, Copy)]
pub(crate) struct Row {
    pub(crate) triangle: Tri,
    pub(crate) number: u32,
}
