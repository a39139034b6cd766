//! How a node moves.

/// Which machines take a path from a node.
#[derive(Clone, Copy, PartialEq, Eq)]
pub enum Mode {
    /// Each machine takes a path.
    Both,
    /// The left machine takes a path alone.
    Left,
    /// The right machine takes a path alone.
    Right,
    /// Both machines are done.
    End,
}
