//! The atoms of a polynomial, kept one by one.

ghost use Rattle.std.specs.Prelude.{◌≡◌, OnOk};
ghost use Rattle.nf_trees.specs.View.{monomial_in, polynomial_in};
ghost use Rattle.nf_bank.specs.Atoms.{with_monomial, with_terms, IsFront};

use nf_bank::bank::Bank;
use nf_terms::stop::NoMemory;
use nf_trees::tree::{MonoTree, PolyTree};
use std::alloc::Global;

// Keeps the atoms of a monomial.
#[tactic(auto, using(nf_bank::proofs::Fronts::fronts))]
fn put_monomial(alloc: Global, bank: &mut Bank, mono: &MonoTree) -> Result<(), NoMemory>
    ensures kept { OnOk result (bank.new ≡ with_monomial (monomial_in mono.now) bank.old) }
    ensures front { IsFront bank.old bank.new }
{
    for atom in &mono.atoms {
        bank.put(alloc, atom)?;
    }
    Ok(())
}

/// Keeps the atoms of a polynomial. The one refusal is out of memory.
#[tactic(auto, using(nf_bank::proofs::Fronts::fronts))]
pub(crate) fn put_terms(alloc: Global, bank: &mut Bank, poly: &PolyTree) -> Result<(), NoMemory>
    ensures kept { OnOk result (bank.new ≡ with_terms (polynomial_in poly.now) bank.old) }
    ensures front { IsFront bank.old bank.new }
{
    for (mono, _coefficient) in &poly.monos {
        put_monomial(alloc, bank, mono)?;
    }
    Ok(())
}
