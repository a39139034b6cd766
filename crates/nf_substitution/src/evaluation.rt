//! The substituted values of terms that are given by numbers.

ghost use Rattle.std.specs.Prelude.{◌<◌, ◌≤◌, length, pos};
ghost use Rattle.nf_trees.specs.NormalTerms.{Polynomial};
ghost use Rattle.nf_terms.specs.Computed.{Computed, Done, Answers, after};
ghost use Rattle.nf_sums.specs.Operations.{number as number_of, normal_sum, normal_product};
ghost use Rattle.nf_arrays.specs.NewAtoms.{quotient_of, remainder_of};
ghost use Rattle.nf_arrays.specs.Writes.{write_array, read_at};
ghost use Rattle.nf_bank.specs.AtomNumbers.{bound_of_term, bound_of_sum, bound_of_write, bound_of_array, bound_of_node};
ghost use Rattle.nf_bank.specs.AtomNumbers.{bound_over, bound_of_number, atom_of_number};
ghost use Rattle.nf_bank.specs.AtomNumbers.{monomial_over, sum_over, array_over, atom_over};
ghost use Rattle.nf_vectors.specs.Vectors.{number_at};
ghost use Rattle.nf_substitution.specs.Substitution.{atom_substituted, atoms_substituted, polynomial_substituted};
ghost use Rattle.nf_substitution.specs.Substitution.{array_substituted};
ghost use Rattle.nf_substitution.specs.Keeping.{AreValues};

use crate::memo::Memo;
use crate::shared_number::SharedNumber;
use nf_arrays::division::{div, rem};
use nf_arrays::reads::read;
use nf_arrays::writes::write;
use nf_bank::bank::Bank;
use nf_bank::items::Items;
use nf_bank::node::{Array, AtomId, Node, Term, Write};
use nf_sums::accumulator::Accumulator;
use nf_sums::sums::{mul, number};
use nf_terms::arr::Arr;
use nf_terms::poly::Poly;
use nf_terms::stop::NfStop;
use nf_terms::tree::Pos;
use nf_vectors::vector::Vector;
use std::alloc::Global;

// The value of the atom of a number, which is found once.
#[cycle(evaluation)]
#[tactic(auto, using(crate::proofs::Known::found))]
fn number_value(
    alloc: Global,
    vector: &Vector,
    bank: &Bank,
    memo: &mut Memo,
    id: AtomId,
) -> Result<SharedNumber, NfStop>
    requires within { id.0 < length bank.now }
    requires known { AreValues vector.now bank.now memo.old }
    ensures answers { Answers result (atom_substituted vector.now (atom_of_number bank.now id)) }
    ensures known { AreValues vector.now bank.now memo.new }
{
    if let Some(value) = memo.get(id)? {
        return Ok(value);
    }
    let value = atom_value(alloc, vector, bank, memo, bank.node(id))?;
    memo.keep_number(alloc, id, value)
}

// The number that a symbol becomes.
fn symbol_value(alloc: Global, vector: &Vector, p: &Pos) -> Result<Poly, NfStop>
    ensures { Answers result (Done (number_at vector.now p.now)) }
{
    Ok(vector.number(alloc, p)?)
}

// A read of an array, where the index was computed.
fn read_value(alloc: Global, array: &Arr, index: Result<Poly, NfStop>) -> Result<Poly, NfStop>
    ensures { (i : Computed Polynomial) → Answers index i → Answers result (after i (λ j. read_at array.now j)) }
{
    read(alloc, array, &index?)
}

// A quotient, where the divisor was computed.
fn quotient_value(alloc: Global, left: &Poly, right: Result<Poly, NfStop>) -> Result<Poly, NfStop>
    ensures { (d : Computed Polynomial) → Answers right d → Answers result (after d (λ r. quotient_of left.now r)) }
{
    div(alloc, left, &right?)
}

// A remainder, where the divisor was computed.
fn remainder_value(alloc: Global, left: &Poly, right: Result<Poly, NfStop>) -> Result<Poly, NfStop>
    ensures { (d : Computed Polynomial) → Answers right d → Answers result (after d (λ r. remainder_of left.now r)) }
{
    rem(alloc, left, &right?)
}

// The operation of an atom on its substituted parts.
#[cycle(evaluation)]
fn atom_value(
    alloc: Global,
    vector: &Vector,
    bank: &Bank,
    memo: &mut Memo,
    node: &Node,
) -> Result<Poly, NfStop>
    requires within { bound_of_node node.now ≤ length bank.now }
    requires known { AreValues vector.now bank.now memo.old }
    ensures answers { Answers result (atom_substituted vector.now (atom_over bank.now node.now)) }
    ensures known { AreValues vector.now bank.now memo.new }
{
    match node {
        Node::Sym(p) => symbol_value(alloc, vector, p),
        Node::Read(array, index) => {
            let array = array_value(alloc, vector, bank, memo, array)?;
            let index = sum_value(alloc, vector, bank, memo, index);
            read_value(alloc, &array, index)
        }
        Node::Div(left, right) => {
            let left = sum_value(alloc, vector, bank, memo, left)?;
            let right = sum_value(alloc, vector, bank, memo, right);
            quotient_value(alloc, &left, right)
        }
        Node::Rem(left, right) => {
            let left = sum_value(alloc, vector, bank, memo, left)?;
            let right = sum_value(alloc, vector, bank, memo, right);
            remainder_value(alloc, &left, right)
        }
    }
}

// A number that was computed, shared.
fn share(alloc: Global, number: Result<Poly, NfStop>) -> Result<SharedNumber, NfStop>
    ensures { (c : Computed Polynomial) → Answers number c → Answers result c }
{
    Ok(SharedNumber::of(alloc, number?)?)
}

// The product of two numbers, shared, where the second was computed.
fn multiply(
    alloc: Global,
    left: &SharedNumber,
    right: Result<SharedNumber, NfStop>,
) -> Result<SharedNumber, NfStop>
    ensures { (c : Computed Polynomial) → Answers right c → Answers result (after c (λ f. normal_product left.now f)) }
{
    let right = right?;
    share(alloc, mul(alloc, left.number(), right.number()))
}

// A sum with one number more, where this was computed.
fn add_number(
    alloc: Global,
    so_far: Accumulator,
    number: Result<SharedNumber, NfStop>,
) -> Result<Accumulator, NfStop>
    ensures { (c : Computed Polynomial) → Answers number c → Answers result (after c (λ t. normal_sum so_far t)) }
{
    let number = number?;
    so_far.add(alloc, number.number())
}

// A number times the values of atoms.
#[cycle(evaluation)]
#[tactic(auto, using(nf_bank::proofs::Bounds::bound_of_item))]
fn product_value(
    alloc: Global,
    vector: &Vector,
    bank: &Bank,
    memo: &mut Memo,
    first: SharedNumber,
    atoms: &[AtomId],
) -> Result<SharedNumber, NfStop>
    requires within { bound_over bound_of_number atoms.now ≤ length bank.now }
    requires known { AreValues vector.now bank.now memo.old }
    ensures answers { Answers result (atoms_substituted vector.now (monomial_over bank.now atoms.now) first) }
    ensures known { AreValues vector.now bank.now memo.new }
{
    let mut so_far = first;
    for id in atoms {
        let factor = number_value(alloc, vector, bank, memo, *id);
        so_far = multiply(alloc, &so_far, factor)?;
    }
    Ok(so_far)
}

// The values of atoms, multiplied: that of the first stands for its product with 1.
#[cycle(evaluation)]
fn monomial_value(
    alloc: Global,
    vector: &Vector,
    bank: &Bank,
    memo: &mut Memo,
    atoms: &[AtomId],
) -> Result<SharedNumber, NfStop>
    requires within { bound_over bound_of_number atoms.now ≤ length bank.now }
    requires known { AreValues vector.now bank.now memo.old }
    ensures answers { Answers result
        (after (number_of (pos 1)) (atoms_substituted vector.now (monomial_over bank.now atoms.now))) }
    ensures known { AreValues vector.now bank.now memo.new }
{
    match atoms {
        [] => share(alloc, number(alloc, &1)),
        [id, rest @ ..] => {
            let first = number_value(alloc, vector, bank, memo, *id)?;
            let _number = first.number(); // The call tells the proof that the value is normal.
            product_value(alloc, vector, bank, memo, first, rest)
        }
    }
}

// A coefficient times the values of the atoms of a monomial.
#[cycle(evaluation)]
fn term_value(
    alloc: Global,
    vector: &Vector,
    bank: &Bank,
    memo: &mut Memo,
    term: &Term,
) -> Result<SharedNumber, NfStop>
    requires within { bound_of_term term.now ≤ length bank.now }
    requires known { AreValues vector.now bank.now memo.old }
    ensures answers { Answers result
        (after (number_of term.now.coefficient) (atoms_substituted vector.now (monomial_over bank.now term.now.atoms))) }
    ensures known { AreValues vector.now bank.now memo.new }
{
    let atoms = term.atoms.as_slice();
    if term.coefficient == 1 {
        return monomial_value(alloc, vector, bank, memo, atoms);
    }
    let first = share(alloc, number(alloc, &term.coefficient))?;
    product_value(alloc, vector, bank, memo, first, atoms)
}

/// A polynomial with the vector's forms in place of its symbols.
#[cycle(evaluation)]
#[tactic(auto, using(nf_bank::proofs::Bounds::bound_of_item))]
pub(crate) fn sum_value(
    alloc: Global,
    vector: &Vector,
    bank: &Bank,
    memo: &mut Memo,
    terms: &Items<Term>,
) -> Result<Poly, NfStop>
    requires within { bound_of_sum terms.now ≤ length bank.now }
    requires known { AreValues vector.now bank.now memo.old }
    ensures answers { Answers result (polynomial_substituted vector.now (sum_over bank.now terms.now)) }
    ensures known { AreValues vector.now bank.now memo.new }
{
    let mut so_far = Accumulator::new(alloc);
    for term in terms.as_slice() {
        let value = term_value(alloc, vector, bank, memo, term);
        so_far = add_number(alloc, so_far, value)?;
    }
    Ok(so_far.into_poly())
}

// An array with one write more, where the value was computed.
fn write_value(
    alloc: Global,
    so_far: &Arr,
    index: &Poly,
    value: Result<Poly, NfStop>,
) -> Result<Arr, NfStop>
    ensures { (c : Computed Polynomial) → Answers value c
        → Answers result (after c (λ x. write_array so_far.now index.now x)) }
{
    write(alloc, so_far, index, &value?)
}

// An array with one write more, of the values of its index and its value.
#[cycle(evaluation)]
fn written_value(
    alloc: Global,
    vector: &Vector,
    bank: &Bank,
    memo: &mut Memo,
    so_far: &Arr,
    entry: &Write,
) -> Result<Arr, NfStop>
    requires within { bound_of_write entry.now ≤ length bank.now }
    requires known { AreValues vector.now bank.now memo.old }
    ensures answers { Answers result
        (after (polynomial_substituted vector.now (sum_over bank.now entry.now.index))
        (λ i. after (polynomial_substituted vector.now (sum_over bank.now entry.now.value))
        (λ x. write_array so_far.now i x))) }
    ensures known { AreValues vector.now bank.now memo.new }
{
    let index = sum_value(alloc, vector, bank, memo, &entry.index)?;
    let value = sum_value(alloc, vector, bank, memo, &entry.value);
    write_value(alloc, so_far, &index, value)
}

/// An array with the vector's forms in place of its symbols.
#[cycle(evaluation)]
#[tactic(auto, using(nf_bank::proofs::Bounds::bound_of_item))]
pub(crate) fn array_value(
    alloc: Global,
    vector: &Vector,
    bank: &Bank,
    memo: &mut Memo,
    array: &Array,
) -> Result<Arr, NfStop>
    requires within { bound_of_array array.now ≤ length bank.now }
    requires known { AreValues vector.now bank.now memo.old }
    ensures answers { Answers result (array_substituted vector.now (array_over bank.now array.now)) }
    ensures known { AreValues vector.now bank.now memo.new }
{
    let mut so_far = vector.array_base(alloc, &array.base)?;
    for entry in array.writes.as_slice() {
        so_far = written_value(alloc, vector, bank, memo, &so_far, entry)?;
    }
    Ok(so_far)
}
