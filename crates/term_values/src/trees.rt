//! From written terms to trees of terms.

ghost use Rattle.std.specs.Prelude.{◌≡◌, ◌++◌, map, pos, List, IfOk, Ok, unsigned_abs};
ghost use Rattle.nf_trees.specs.NormalTerms as terms;
ghost use Rattle.nf_trees.specs.View as view;
ghost use Rattle.term_text.specs.View as text;
ghost use Rattle.term_condition_text.specs.DigitNumbers.{clipped_number};
ghost use Rattle.term_values.specs.TermValues.{within_limit, coefficient, atom_value, atoms_of, polynomial_value, array_value};
ghost use Rattle.term_values.specs.TermValues.{list_base};
ghost use Rattle.term_values.specs.ListParts.{under_sign, base_value, IsPushed};

use crate::names::{Names, position};
use nf_terms::atoms::{make_quotient, make_read, make_remainder};
use nf_terms::stop::NoMemory;
use nf_terms::tree::SeqBase;
use nf_trees::tree::{ArrTree, Atom, Base, MonoTree, PolyTree};
use std::alloc::Global;
use term_condition_text::numbers::clip_number;
use term_text::tree::{
    WrittenArray, WrittenAtom, WrittenBase, WrittenHead, WrittenListBase, WrittenMonomial,
    WrittenPolynomial,
};

// The coefficient that a monomial begins with: 1 where it begins with an atom.
fn head_number(head: &WrittenHead<'_>) -> i128
    ensures number { result ≡ pos (coefficient clipped_number (text.head_in head.now)) }
    ensures natural { result ≡ pos (unsigned_abs result) }
{
    match head {
        WrittenHead::Number(digits) => clip_number(digits),
        WrittenHead::One(_) => 1,
    }
}

// The coefficient of a monomial under its sign.
#[tactic(auto, using(crate::proofs::Lists::coefficient_tree))]
fn signed_number(minus: bool, monomial: &WrittenMonomial<'_>) -> i128
    ensures { result ≡ under_sign minus (coefficient clipped_number (text.written_monomial_in monomial.now)) }
{
    let number = head_number(&monomial.head);
    if minus { -number } else { number }
}

// Two values, where both were made.
fn both<A: Drop, B: Drop>(
    left: Result<A, NoMemory>,
    right: Result<B, NoMemory>,
) -> Result<(A, B), NoMemory>
    ensures left { IfOk result (λ p. left ≡ Ok p.0) }
    ensures right { IfOk result (λ p. right ≡ Ok p.1) }
{
    Ok((left?, right?))
}

// The list with a value behind it, where that was made.
fn push_made<T: Drop>(mut out: Vec<T>, made: Result<T, NoMemory>) -> Result<Vec<T>, NoMemory>
    ensures { IfOk result (λ v. IsPushed made out.items v.items) }
{
    out.push(made?)?;
    Ok(out)
}

#[cycle(trees)]
fn atom_tree<N: Names>(alloc: Global, names: &N, atom: &WrittenAtom<'_>) -> Result<Atom, NoMemory>
    ensures { IfOk result (λ a. view.atom_in a ≡ atom_value (within_limit (N.find names.now)) (text.written_atom_in atom.now)) }
{
    match atom {
        WrittenAtom::Symbol(side, name) => Ok(Atom::Sym(position(names, *side, name))),
        WrittenAtom::Read(array, index) => {
            let array = array_tree(alloc, names, array);
            let (array, index) = both(array, polynomial_tree(alloc, names, index))?;
            make_read(alloc, array, index)
        }
        WrittenAtom::Quotient(left, right) => {
            let left = polynomial_tree(alloc, names, left);
            let (left, right) = both(left, polynomial_tree(alloc, names, right))?;
            make_quotient(alloc, left, right)
        }
        WrittenAtom::Remainder(left, right) => {
            let left = polynomial_tree(alloc, names, left);
            let (left, right) = both(left, polynomial_tree(alloc, names, right))?;
            make_remainder(alloc, left, right)
        }
    }
}

// The atom that a monomial begins with, if it does.
#[cycle(trees)]
fn head_atoms<N: Names>(
    alloc: Global,
    names: &N,
    head: &WrittenHead<'_>,
) -> Result<Vec<Atom>, NoMemory>
    ensures { IfOk result
        (λ v. (rest : List terms.Atom) → terms.monomial_of (map view.atom_in v.items ++ rest)
        ≡ atoms_of (within_limit (N.find names.now)) (text.head_in head.now) (terms.monomial_of rest)) }
{
    match head {
        WrittenHead::Number(_) => Ok(Vec::new(alloc)),
        WrittenHead::One(atom) => push_made(Vec::new(alloc), atom_tree(alloc, names, atom)),
    }
}

#[cycle(trees)]
fn monomial_tree<N: Names>(
    alloc: Global,
    names: &N,
    monomial: &WrittenMonomial<'_>,
) -> Result<MonoTree, NoMemory>
    ensures { IfOk result
        (λ m. view.monomial_in m ≡ atoms_of (within_limit (N.find names.now)) (text.written_monomial_in monomial.now) terms.One) }
{
    let mut atoms = head_atoms(alloc, names, &monomial.head)?;
    for atom in &monomial.atoms {
        atoms = push_made(atoms, atom_tree(alloc, names, atom))?;
    }
    Ok(MonoTree { atoms })
}

/// The tree of a polynomial. The one refusal is out of memory.
#[cycle(trees)]
pub fn polynomial_tree<N: Names>(
    alloc: Global,
    names: &N,
    polynomial: &WrittenPolynomial<'_>,
) -> Result<PolyTree, NoMemory>
    ensures { IfOk result
        (λ p. view.polynomial_in p ≡ polynomial_value (within_limit (N.find names.now))
        (text.written_polynomial_in polynomial.now)) }
{
    let mut monos = Vec::new(alloc);
    for (minus, monomial) in &polynomial.monomials {
        let number = signed_number(*minus, monomial);
        let term = both(monomial_tree(alloc, names, monomial), Ok(number));
        monos = push_made(monos, term)?;
    }
    Ok(PolyTree { monos })
}

fn base_tree<N: Names>(names: &N, base: &WrittenBase<'_>) -> Base
    ensures { result ≡ base_value (within_limit (N.find names.now)) (text.base_in base.now) }
{
    match base {
        WrittenBase::Zero => Base::Zero,
        WrittenBase::Symbol(side, name) => Base::Sym(position(names, *side, name)),
    }
}

/// The tree of an array. The one refusal is out of memory.
#[cycle(trees)]
pub fn array_tree<N: Names>(
    alloc: Global,
    names: &N,
    array: &WrittenArray<'_>,
) -> Result<ArrTree, NoMemory>
    ensures { IfOk result
        (λ a. view.array_in a ≡ array_value (within_limit (N.find names.now)) (text.written_array_in array.now) terms.NoWrites) }
{
    let mut writes = Vec::new(alloc);
    for (index, value) in &array.writes {
        let index = polynomial_tree(alloc, names, index);
        let write = both(index, polynomial_tree(alloc, names, value));
        writes = push_made(writes, write)?;
    }
    Ok(ArrTree {
        base: base_tree(names, &array.base),
        writes,
    })
}

/// What a list begins with.
pub fn list_base_tree<N: Names>(names: &N, base: &WrittenListBase<'_>) -> SeqBase
    ensures { result ≡ list_base (within_limit (N.find names.now)) (text.list_base_in base.now) }
{
    match base {
        WrittenListBase::Empty => SeqBase::Empty,
        WrittenListBase::Symbol(side, name) => SeqBase::Sym(position(names, *side, name)),
    }
}
