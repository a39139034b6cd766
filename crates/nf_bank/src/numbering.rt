//! Terms by numbers: the atoms in them are put into a bank.

ghost use Rattle.std.specs.Prelude.{◌≡◌, Some, IfOk, OnOk};
ghost use Rattle.nf_trees.specs.View.{atom_in, monomial_in, polynomial_in, array_in};
ghost use Rattle.nf_bank.specs.Atoms.{atom_place, with_atom, with_inner, with_monomial, with_terms, with_array, IsFront};
ghost use Rattle.nf_bank.specs.AtomNumbers.{SpellsMonomial, SpellsSum, SpellsArray, SpellsAtom};

use crate::bank::Bank;
use crate::items::Items;
use crate::node::{Array, AtomId, Node, Term, Write};
use nf_terms::stop::NoMemory;
use nf_trees::tree::{ArrTree, Atom, MonoTree, PolyTree};
use std::alloc::Global;

/// The number of an atom, which is put last, after those in it, if it is not there.
#[cycle(numbering)]
#[tactic(auto, using(crate::proofs::Closed::atom_put))]
pub(crate) fn put_atom(alloc: Global, bank: &mut Bank, atom: &Atom) -> Result<AtomId, NoMemory>
    ensures kept { OnOk result (bank.new ≡ with_atom (atom_in atom.now) bank.old) }
    ensures place { IfOk result (λ id. atom_place (atom_in atom.now) bank.new ≡ Some id.0) }
    ensures front { IsFront bank.old bank.new }
{
    bank.see_closed();
    let node = put_inner(alloc, bank, atom)?;
    bank.put_node(node)
}

// The node of an atom. The atoms in it are put.
#[cycle(numbering)]
#[tactic(auto, using(crate::proofs::Fronts::fronts))]
fn put_inner(alloc: Global, bank: &mut Bank, atom: &Atom) -> Result<Node, NoMemory>
    ensures kept { OnOk result (bank.new ≡ with_inner (atom_in atom.now) bank.old) }
    ensures spelled { IfOk result (λ node. SpellsAtom bank.new node (atom_in atom.now)) }
    ensures front { IsFront bank.old bank.new }
{
    match atom {
        Atom::Sym(p) => Ok(Node::Sym(*p)),
        Atom::Read(array, index) => {
            let array = put_array(alloc, bank, array)?;
            let index = put_sum(alloc, bank, index)?;
            Ok(Node::Read(array, index))
        }
        Atom::Div(left, right) => {
            let left = put_sum(alloc, bank, left)?;
            let right = put_sum(alloc, bank, right)?;
            Ok(Node::Div(left, right))
        }
        Atom::Rem(left, right) => {
            let left = put_sum(alloc, bank, left)?;
            let right = put_sum(alloc, bank, right)?;
            Ok(Node::Rem(left, right))
        }
    }
}

// The numbers of the atoms of a monomial, which are put.
#[cycle(numbering)]
#[tactic(auto, using(crate::proofs::Fronts::fronts))]
fn put_mono(alloc: Global, bank: &mut Bank, mono: &MonoTree) -> Result<Items<AtomId>, NoMemory>
    ensures kept { OnOk result (bank.new ≡ with_monomial (monomial_in mono.now) bank.old) }
    ensures spelled { IfOk result (λ ids. SpellsMonomial bank.new ids (monomial_in mono.now)) }
    ensures front { IsFront bank.old bank.new }
{
    let mut ids = Vec::new(alloc);
    for atom in &mono.atoms {
        let id = put_atom(alloc, bank, atom)?;
        ids.push(id)?;
    }
    Ok(Items::new(ids))
}

/// A polynomial by the numbers of its atoms, which are put as `Bank::put` puts them, in order.
///
/// The one refusal is out of memory. What was there before keeps its numbers, then too.
#[cycle(numbering)]
#[tactic(auto, using(crate::proofs::Fronts::fronts))]
pub fn put_sum(alloc: Global, bank: &mut Bank, sum: &PolyTree) -> Result<Items<Term>, NoMemory>
    ensures kept { OnOk result (bank.new ≡ with_terms (polynomial_in sum.now) bank.old) }
    ensures spelled { IfOk result (λ terms. SpellsSum bank.new terms (polynomial_in sum.now)) }
    ensures front { IsFront bank.old bank.new }
{
    let mut terms = Vec::new(alloc);
    for (mono, coefficient) in &sum.monos {
        let atoms = put_mono(alloc, bank, mono)?;
        terms.push(Term::new(atoms, coefficient))?;
    }
    Ok(Items::new(terms))
}

/// An array by the numbers of the atoms in it, which are put as `Bank::put` puts them, in order.
///
/// The one refusal is out of memory. What was there before keeps its numbers, then too.
#[cycle(numbering)]
#[tactic(auto, using(crate::proofs::Fronts::fronts))]
pub fn put_array(alloc: Global, bank: &mut Bank, array: &ArrTree) -> Result<Array, NoMemory>
    ensures kept { OnOk result (bank.new ≡ with_array (array_in array.now) bank.old) }
    ensures spelled { IfOk result (λ numbers. SpellsArray bank.new numbers (array_in array.now)) }
    ensures front { IsFront bank.old bank.new }
{
    let mut writes = Vec::new(alloc);
    for (index, value) in &array.writes {
        let index = put_sum(alloc, bank, index)?;
        let value = put_sum(alloc, bank, value)?;
        writes.push(Write { index, value })?;
    }
    Ok(Array {
        base: array.base,
        writes: Items::new(writes),
    })
}
