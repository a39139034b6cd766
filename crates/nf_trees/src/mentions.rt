//! Whether a tree mentions a symbol.

ghost use Rattle.std.specs.Prelude.{◌≡◌};
ghost use Rattle.nf_trees.specs.View.{atom_in, monomial_in, polynomial_in, array_in};
ghost use Rattle.nf_trees.specs.Mentions.{mentions_atom, mentions_monomial, mentions, mentions_array, mentions_base};

use crate::tree::{ArrTree, Atom, Base, MonoTree, PolyTree, Pos};

/// Whether a base is the symbol `p`.
pub fn base_mentions(base: &Base, p: &Pos) -> bool
    ensures { result ≡ mentions_base p.now base.now }
{
    match base {
        Base::Zero => false,
        Base::Sym(q) => p == q,
    }
}

/// Whether the symbol `p` stands in an atom.
#[cycle(names)]
pub fn atom_mentions(atom: &Atom, p: &Pos) -> bool
    ensures { result ≡ mentions_atom p.now (atom_in atom.now) }
{
    match atom {
        Atom::Sym(q) => p == q,
        Atom::Read(array, index) => arr_mentions(array, p) || poly_mentions(index, p),
        Atom::Div(left, right) | Atom::Rem(left, right) => {
            poly_mentions(left, p) || poly_mentions(right, p)
        }
    }
}

/// Whether the symbol `p` stands in a monomial.
#[cycle(names)]
pub fn mono_mentions(mono: &MonoTree, p: &Pos) -> bool
    ensures { result ≡ mentions_monomial p.now (monomial_in mono.now) }
{
    for atom in &mono.atoms {
        if atom_mentions(atom, p) {
            return true;
        }
    }
    false
}

/// Whether the symbol `p` stands in a polynomial.
#[cycle(names)]
pub fn poly_mentions(poly: &PolyTree, p: &Pos) -> bool
    ensures { result ≡ mentions p.now (polynomial_in poly.now) }
{
    for (mono, _coefficient) in &poly.monos {
        if mono_mentions(mono, p) {
            return true;
        }
    }
    false
}

/// Whether the symbol `p` stands in an array: as its base or in its writes.
#[cycle(names)]
pub fn arr_mentions(arr: &ArrTree, p: &Pos) -> bool
    ensures { result ≡ mentions_array p.now (array_in arr.now) }
{
    if base_mentions(&arr.base, p) {
        return true;
    }
    for (index, value) in &arr.writes {
        if poly_mentions(index, p) {
            return true;
        }
        if poly_mentions(value, p) {
            return true;
        }
    }
    false
}
