//! Trees of terms that are given by numbers.

ghost use Rattle.std.specs.Prelude.{◌≡◌, ◌<◌, ◌≤◌, length, IfOk};
ghost use Rattle.nf_trees.specs.View.{atom_in, monomial_in, polynomial_in, array_in};
ghost use Rattle.nf_bank.specs.AtomNumbers.{bound_over, bound_of_number, bound_of_sum, bound_of_array, atom_of_number};
ghost use Rattle.nf_bank.specs.AtomNumbers.{monomial_over, sum_over, array_over};

use crate::bank::Bank;
use crate::node::{Array, AtomId, Node, Term};
use nf_terms::atoms::{make_quotient, make_read, make_remainder};
use nf_terms::copies::{push_atom, push_term, push_write};
use nf_terms::stop::NoMemory;
use nf_trees::tree::{ArrTree, Atom, MonoTree, PolyTree};
use std::alloc::Global;

/// The atom of a number.
#[cycle(trees)]
pub(crate) fn atom_tree(alloc: Global, bank: &Bank, id: AtomId) -> Result<Atom, NoMemory>
    requires { id.0 < length bank.now }
    ensures { IfOk result (λ a. atom_in a ≡ atom_of_number bank.now id) }
{
    match bank.node(id) {
        Node::Sym(p) => Ok(Atom::Sym(*p)),
        Node::Read(array, index) => {
            let array = array_tree(alloc, bank, array)?;
            make_read(alloc, array, sum_tree(alloc, bank, index.as_slice())?)
        }
        Node::Div(left, right) => {
            let left = sum_tree(alloc, bank, left.as_slice())?;
            make_quotient(alloc, left, sum_tree(alloc, bank, right.as_slice())?)
        }
        Node::Rem(left, right) => {
            let left = sum_tree(alloc, bank, left.as_slice())?;
            make_remainder(alloc, left, sum_tree(alloc, bank, right.as_slice())?)
        }
    }
}

// The product of the atoms of these numbers.
#[cycle(trees)]
#[tactic(auto, using(crate::proofs::Bounds::bound_of_item))]
fn mono_tree(alloc: Global, bank: &Bank, ids: &[AtomId]) -> Result<MonoTree, NoMemory>
    requires { bound_over bound_of_number ids.now ≤ length bank.now }
    ensures { IfOk result (λ m. monomial_in m ≡ monomial_over bank.now ids.now) }
{
    let mut atoms = Vec::new(alloc);
    for id in ids {
        push_atom(&mut atoms, atom_tree(alloc, bank, *id)?)?;
    }
    Ok(MonoTree { atoms })
}

// The polynomial of these terms.
#[cycle(trees)]
#[tactic(auto, using(crate::proofs::Bounds::bound_of_item))]
fn sum_tree(alloc: Global, bank: &Bank, terms: &[Term]) -> Result<PolyTree, NoMemory>
    requires { bound_of_sum terms.now ≤ length bank.now }
    ensures { IfOk result (λ p. polynomial_in p ≡ sum_over bank.now terms.now) }
{
    let mut monos = Vec::new(alloc);
    for term in terms {
        let mono = mono_tree(alloc, bank, term.atoms.as_slice())?;
        push_term(&mut monos, mono, &term.coefficient)?;
    }
    Ok(PolyTree { monos })
}

// The array of these numbers.
#[cycle(trees)]
#[tactic(auto, using(crate::proofs::Bounds::bound_of_item))]
fn array_tree(alloc: Global, bank: &Bank, array: &Array) -> Result<ArrTree, NoMemory>
    requires { bound_of_array array.now ≤ length bank.now }
    ensures { IfOk result (λ a. array_in a ≡ array_over bank.now array.now) }
{
    let mut writes = Vec::new(alloc);
    for write in array.writes.as_slice() {
        let index = sum_tree(alloc, bank, write.index.as_slice())?;
        let value = sum_tree(alloc, bank, write.value.as_slice())?;
        push_write(&mut writes, index, value)?;
    }
    Ok(ArrTree {
        base: array.base,
        writes,
    })
}
