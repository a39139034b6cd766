//! Products of ordered monomials.

ghost use Rattle.std.specs.Prelude.{map, IfOk, IsTrue};
ghost use Rattle.nf_trees.specs.NormalTerms.{monomial_of};
ghost use Rattle.nf_trees.specs.View.{atom_in, monomial_in};
ghost use Rattle.nf_terms.specs.Normal.{ordered_monomial};
ghost use Rattle.nf_sums.specs.OrderedSums.{IsOrderedJoin};

use crate::copies::push_atom_copy;
use nf_terms::order::compare_atoms;
use nf_terms::stop::NoMemory;
use nf_trees::tree::{Atom, MonoTree};
use std::alloc::Global;

/// The atoms of two ordered lists in one.
fn merged_atoms(alloc: Global, l: &[Atom], r: &[Atom]) -> Result<Vec<Atom>, NoMemory>
    requires left { IsTrue (ordered_monomial (monomial_of (map atom_in l.now))) }
    requires right { IsTrue (ordered_monomial (monomial_of (map atom_in r.now))) }
    ensures { IfOk result
        (λ v. IsOrderedJoin (monomial_of (map atom_in l.now)) (monomial_of (map atom_in r.now))
        (monomial_of (map atom_in v.items))) }
{
    let mut out = Vec::new(alloc);
    let mut i = 0;
    let mut j = 0;
    'merge: loop {
        match l.get(i) {
            None => match r.get(j) {
                None => break 'merge,
                Some(atom) => {
                    push_atom_copy(alloc, &mut out, atom)?;
                    j += 1;
                }
            },
            Some(atom) => match r.get(j) {
                None => {
                    push_atom_copy(alloc, &mut out, atom)?;
                    i += 1;
                }
                Some(other) => {
                    if compare_atoms(atom, other).is_le() {
                        push_atom_copy(alloc, &mut out, atom)?;
                        i += 1;
                    } else {
                        push_atom_copy(alloc, &mut out, other)?;
                        j += 1;
                    }
                }
            },
        }
    }
    Ok(out)
}

/// The product of two ordered monomials.
pub fn multiply_monomials(alloc: Global, l: &MonoTree, r: &MonoTree) -> Result<MonoTree, NoMemory>
    requires left { IsTrue (ordered_monomial (monomial_in l.now)) }
    requires right { IsTrue (ordered_monomial (monomial_in r.now)) }
    ensures { IfOk result (λ m. IsOrderedJoin (monomial_in l.now) (monomial_in r.now) (monomial_in m)) }
{
    let atoms = merged_atoms(alloc, &l.atoms, &r.atoms)?;
    Ok(MonoTree { atoms })
}
