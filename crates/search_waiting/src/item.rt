//! What may have to be done at a node.

/// What may have to be done at a node, by its number: at place 0 its mode is to be found, and at place k + 1 the k-th move of its
/// mode is to be tried.
#[derive(Clone, Copy, PartialEq, Eq, PartialOrd, Ord)]
pub struct Item {
    pub node: u32,
    pub place: u32,
}
