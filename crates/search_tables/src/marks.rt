//! Marks of nodes and frames of the stacks of depth-first searches.

/// How far a node has come: it is new, stands on the stack at this place, or has its rank.
#[derive(Clone, Copy)]
pub(crate) enum Mark {
    New,
    Open(usize),
    Ranked(u32),
}

/// A node on the stack: its targets before `next` have ranks, and `best` is one more than the greatest of these.
#[derive(Clone, Copy)]
pub(crate) struct Frame {
    pub(crate) node: u32,
    pub(crate) next: usize,
    pub(crate) best: u32,
}

/// A node on a path: its targets before `next` were looked at.
#[derive(Clone, Copy)]
pub(crate) struct Step {
    pub(crate) node: u32,
    pub(crate) next: usize,
}
