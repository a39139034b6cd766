//! Lists that grow by copies.

ghost use Rattle.std.specs.Prelude.{◌≡◌, ◌++◌, ◌∷◌, [], map, OnOk};
ghost use Rattle.nf_trees.specs.View.{atom_in, monomial_in, term_in};

use nf_terms::copies::{push_atom, push_term};
use nf_terms::stop::NoMemory;
use nf_trees::tree::{Atom, MonoTree};
use std::alloc::Global;

/// Adds a copy of an atom. The one refusal is out of memory.
pub fn push_atom_copy(alloc: Global, out: &mut Vec<Atom>, atom: &Atom) -> Result<(), NoMemory>
    ensures { OnOk result (map atom_in out.new.items ≡ map atom_in out.old.items ++ atom_in atom.now ∷ []) }
{
    push_atom(out, atom.try_clone(alloc)?)
}

/// Adds a copy of a monomial with its coefficient. The one refusal is out of memory.
pub fn push_term_copy(
    alloc: Global,
    out: &mut Vec<(MonoTree, i128)>,
    mono: &MonoTree,
    coefficient: &i128,
) -> Result<(), NoMemory>
    ensures { OnOk result
        (map term_in out.new.items ≡ map term_in out.old.items ++ (monomial_in mono.now, coefficient.now) ∷ []) }
{
    push_term(out, mono.try_clone(alloc)?, coefficient)
}
