//! Whether a substitution leaves a polynomial as it is: a look at its symbols, which takes no memory.

ghost use Rattle.std.specs.Prelude.{◌≡◌};
ghost use Rattle.nf_trees.specs.View.{atom_in, monomial_in, polynomial_in};
ghost use Rattle.nf_substitution.specs.StayingTerms.{is_symbol, symbol_stays, atom_stays, atoms_stay, monomial_stays, terms_stay};

use nf_terms::form::Nf;
use nf_terms::symbols::Sort;
use nf_trees::tree::{Atom, MonoTree, PolyTree, Pos};
use nf_vectors::bare_numbers::bare_number;
use nf_vectors::vector::Vector;

// The most atoms of a monomial that is looked at.
const MOST_ATOMS: usize = 2048;

// Whether a symbol was found, and is `p`.
fn is_symbol(p: Pos, found: Option<Pos>) -> bool
    ensures { result ≡ is_symbol p found }
{
    match found {
        Some(q) => p == q,
        None => false,
    }
}

// Whether a vector has a number for a symbol, which is the symbol.
fn symbol_stays(v: &Vector, p: Pos) -> bool
    ensures { result ≡ symbol_stays v.now p }
{
    match v.form(Sort::Scalar, p) {
        Some(Nf::Num(number)) => is_symbol(p, bare_number(number)),
        _ => false,
    }
}

// Whether an atom is such a symbol.
fn atom_stays(v: &Vector, atom: &Atom) -> bool
    ensures { result ≡ atom_stays v.now (atom_in atom.now) }
{
    match atom {
        Atom::Sym(p) => symbol_stays(v, *p),
        Atom::Read(_, _) | Atom::Div(_, _) | Atom::Rem(_, _) => false,
    }
}

// Whether each atom of a monomial is such a symbol.
fn atoms_stay(v: &Vector, mono: &MonoTree) -> bool
    ensures { result ≡ atoms_stay v.now (monomial_in mono.now) }
{
    for atom in &mono.atoms {
        if !atom_stays(v, atom) {
            return false;
        }
    }
    true
}

// Whether the atoms of a monomial are such symbols, and not too many.
#[tactic(auto, using(nf_trees::proofs::Degrees::degrees))]
fn monomial_stays(v: &Vector, mono: &MonoTree) -> bool
    ensures { result ≡ monomial_stays v.now (monomial_in mono.now) }
{
    mono.atoms.len() <= MOST_ATOMS && atoms_stay(v, mono)
}

/// Whether the atoms of a polynomial are symbols that the vector has for themselves, in no monomial too many.
pub(crate) fn terms_stay(v: &Vector, poly: &PolyTree) -> bool
    ensures { result ≡ terms_stay v.now (polynomial_in poly.now) }
{
    for (mono, _coefficient) in &poly.monos {
        if !monomial_stays(v, mono) {
            return false;
        }
    }
    true
}
