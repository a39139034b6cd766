//! Why the bytes of a certificate are refused before its nodes are looked at.

/// Why the bytes of a certificate are refused before its nodes are looked at.
#[derive(Clone, Copy)]
pub enum FileError {
    /// The bytes are not text, or not JSON.
    NotJson,
    /// The value does not have the form of a certificate.
    Shape,
    /// There are more than 4,096 nodes, or more than 64 conditions in a node.
    TooMany,
    /// There is no memory.
    NoMemory,
}
