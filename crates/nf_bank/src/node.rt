//! Atoms as nodes: what is in an atom, by the numbers of the atoms in it.

ghost use Rattle.std.specs.Prelude.{◌≡◌};

use crate::items::Items;
use nf_trees::tree::{Base, Pos};
use std::hash::Hash;

/// The number of an atom of a bank.
#[derive(Clone, Copy, PartialEq, Eq, Hash)]
pub struct AtomId(pub u64);

/// A monomial by the numbers of its atoms, with its coefficient.
#[derive(PartialEq, Eq, Hash, Drop)]
pub struct Term {
    pub atoms: Items<AtomId>,
    pub coefficient: i128,
}

impl Term {
    /// These atoms with this coefficient. Takes no memory.
    pub fn new(atoms: Items<AtomId>, coefficient: &i128) -> Term
        ensures { result ≡ record { atoms = atoms; coefficient = coefficient.now } }
    {
        Term {
            atoms,
            coefficient: *coefficient,
        }
    }
}

/// A write by the numbers of the atoms in it.
#[derive(PartialEq, Eq, Hash, Drop)]
pub struct Write {
    pub index: Items<Term>,
    pub value: Items<Term>,
}

/// An array by the numbers of the atoms in it.
#[derive(PartialEq, Eq, Hash, Drop)]
pub struct Array {
    pub base: Base,
    pub writes: Items<Write>,
}

/// An atom by the numbers of the atoms in it. Kinds, numbers and coefficients alone are compared and hashed.
#[derive(Hash, Drop)]
pub enum Node {
    Sym(Pos),
    Read(Array, Items<Term>),
    Div(Items<Term>, Items<Term>),
    Rem(Items<Term>, Items<Term>),
}

impl PartialEq for Node {
    ghost use Rattle.nf_bank.specs.Nodes.{same_node};
    ghost use Rattle.nf_bank.specs.Equal.{nodes_partly};

    ghost eq = { same_node };

    ghost laws = { nodes_partly };

    fn eq(&self, other: &Node) -> bool {
        match self {
            Node::Sym(p) => match other {
                Node::Sym(q) => p == q,
                Node::Read(_, _) | Node::Div(_, _) | Node::Rem(_, _) => false,
            },
            Node::Read(a, i) => match other {
                Node::Read(b, j) => a == b && i == j,
                Node::Sym(_) | Node::Div(_, _) | Node::Rem(_, _) => false,
            },
            Node::Div(p, q) => match other {
                Node::Div(r, s) => p == r && q == s,
                Node::Sym(_) | Node::Read(_, _) | Node::Rem(_, _) => false,
            },
            Node::Rem(p, q) => match other {
                Node::Rem(r, s) => p == r && q == s,
                Node::Sym(_) | Node::Read(_, _) | Node::Div(_, _) => false,
            },
        }
    }
}

impl Eq for Node {
    ghost use Rattle.nf_bank.specs.Equal.{nodes_same};

    ghost laws = { nodes_same };
}

#[derived]
impl Hash for Node {
    ghost use Rattle.std.specs.Hash.{same_Alike};
    ghost use Rattle.nf_bank.specs.Equal.{nodes_decide};

    ghost respects_eq = { (same_Alike _ nodes_decide).fed };
}
