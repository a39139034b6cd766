//! The sorts of symbols.

/// In which sort a symbol is used.
#[derive(Clone, Copy, PartialEq, Eq, Hash)]
pub enum Sort {
    Scalar,
    Array,
    List,
}
