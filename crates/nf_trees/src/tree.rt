//! Trees of terms, which need not be normal.

pub use fs_model::sides::{Pos, Side};

/// What the writes of an array begin from: 0 everywhere, or a symbol.
#[derive(Clone, Copy, PartialEq, Eq, Hash)]
pub enum Base {
    Zero,
    Sym(Pos),
}

/// An atom: a symbol, an array read at an index, a quotient or a remainder.
#[derive(Drop)]
#[cycle(trees)]
pub enum Atom {
    Sym(Pos),
    Read(Box<ArrTree>, Box<PolyTree>),
    Div(Box<PolyTree>, Box<PolyTree>),
    Rem(Box<PolyTree>, Box<PolyTree>),
}

/// A product of atoms.
#[derive(Drop)]
#[cycle(trees)]
pub struct MonoTree {
    pub atoms: Vec<Atom>,
}

/// A sum of monomials, each with its coefficient.
#[derive(Drop)]
#[cycle(trees)]
pub struct PolyTree {
    pub monos: Vec<(MonoTree, i128)>,
}

/// An array: writes over a base, the first write first, each an index and a value.
#[derive(Drop)]
#[cycle(trees)]
pub struct ArrTree {
    pub base: Base,
    pub writes: Vec<(PolyTree, PolyTree)>,
}
