// Entries.

/// A node of a tree of some kind, with its key. An entry comes before another by the greater key, of one key by the
/// lower kind, and of one kind by the lower node number.
#[derive(Clone, Copy, Debug, PartialEq, Eq)]
pub struct Entry {
    pub key: u128,
    pub kind: u8,
    pub node: u32,
}
