//! Numbers that are symbols alone.

ghost use Rattle.std.specs.Prelude.{◌≡◌, [], ◌∷◌};
ghost use Rattle.nf_trees.specs.View.{atom_in, monomial_in};
ghost use Rattle.nf_trees.specs.NormalTerms.{polynomial_of};
ghost use Rattle.nf_vectors.specs.BareNumbers.{lone_atom, lone_symbol, bare_number};

use nf_terms::poly::Poly;
use nf_trees::tree::{Atom, MonoTree, Pos};

// The symbol that an atom is.
fn lone_atom(atom: &Atom) -> Option<Pos>
    ensures { result ≡ lone_atom (atom_in atom.now) }
{
    match atom {
        Atom::Sym(p) => Some(*p),
        Atom::Read(_, _) | Atom::Div(_, _) | Atom::Rem(_, _) => None,
    }
}

/// The symbol that a monomial is.
pub fn lone_symbol(mono: &MonoTree) -> Option<Pos>
    ensures { result ≡ lone_symbol (monomial_in mono.now) }
{
    match mono.atoms.as_slice() {
        [] => None,
        [atom] => lone_atom(atom),
        [_, _, ..] => None,
    }
}

// The symbol that a monomial with its coefficient is.
fn bare_term(mono: &MonoTree, coefficient: &i128) -> Option<Pos>
    ensures { result ≡ bare_number (polynomial_of ((monomial_in mono.now, coefficient.now) ∷ [])) }
{
    if *coefficient == 1 {
        lone_symbol(mono)
    } else {
        None
    }
}

/// The symbol that a number is.
pub fn bare_number(number: &Poly) -> Option<Pos>
    ensures { result ≡ bare_number number.now }
{
    match number.monos() {
        [] => None,
        [term] => bare_term(&term.0, &term.1),
        [_, _, ..] => None,
    }
}
