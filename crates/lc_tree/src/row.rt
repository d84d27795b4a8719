// The rows in which a tree keeps its nodes.

/// A node: its clump, the number of its representative, how many leaves its left child has, which is 0 for a leaf, and
/// how many it has itself.
#[derive(Clone, Copy)]
pub(crate) struct Row<C> {
    pub(crate) clump: C,
    pub(crate) leader: u32,
    pub(crate) left: u32,
    pub(crate) count: u32,
}
