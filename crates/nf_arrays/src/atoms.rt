//! Atoms alone.

ghost use Rattle.std.specs.Prelude.{◌≡◌, IfOk};
ghost use Rattle.nf_trees.specs.NormalTerms.{One, Times};
ghost use Rattle.nf_trees.specs.View.{atom_in, monomial_in, polynomial_in};
ghost use Rattle.nf_terms.specs.Computed.{Answers};
ghost use Rattle.nf_arrays.specs.NewAtoms.{new_atom as new_atom_of, polynomial_of_atom, IsNewAtom};

use nf_terms::copies::{push_atom, push_term};
use nf_terms::limits::{DEPTH_LIMIT, SIZE_LIMIT};
use nf_terms::measures::{depth_of_atom, size_of_atom};
use nf_terms::poly::Poly;
use nf_terms::stop::{NfStop, NoMemory};
use nf_trees::tree::{Atom, MonoTree, PolyTree};
use std::alloc::Global;

// The monomial of an atom alone.
fn lone_factor(alloc: Global, atom: Atom) -> Result<MonoTree, NoMemory>
    ensures { IfOk result (λ m. monomial_in m ≡ Times (atom_in atom) One) }
{
    let mut atoms = Vec::new(alloc);
    push_atom(&mut atoms, atom)?;
    Ok(MonoTree { atoms })
}

// The tree of an atom alone.
fn atom_tree(alloc: Global, atom: Atom) -> Result<PolyTree, NoMemory>
    ensures { IfOk result (λ tree. polynomial_in tree ≡ polynomial_of_atom (atom_in atom)) }
{
    let mono = lone_factor(alloc, atom)?;
    let mut monos = Vec::new(alloc);
    push_term(&mut monos, mono, &1)?;
    Ok(PolyTree { monos })
}

/// An atom alone.
pub fn new_atom(alloc: Global, atom: Atom) -> Result<Poly, NfStop>
    requires { IsNewAtom (atom_in atom) }
    ensures { Answers result (new_atom_of (atom_in atom)) }
{
    let units = size_of_atom(&atom) + 1;
    if units > SIZE_LIMIT {
        return Err(NfStop::Large { units, depth: 0 });
    }
    let depth = depth_of_atom(&atom);
    if depth > DEPTH_LIMIT {
        return Err(NfStop::Large { units, depth });
    }
    let tree = atom_tree(alloc, atom)?;
    Ok(Poly::from_normal(tree))
}
