//! Trees of terms, which need not be normal, and the bases of lists.

pub use nf_trees::tree::{ArrTree, Atom, Base, MonoTree, PolyTree, Pos, Side};

/// What the items of a list stand behind: nothing, or a symbol.
#[derive(Clone, Copy)]
pub enum SeqBase {
    Empty,
    Sym(Pos),
}
