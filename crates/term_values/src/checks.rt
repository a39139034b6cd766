//! A test of each number and each name of a written term.

ghost use Rattle.std.specs.Prelude.{◌≡◌, ◌&&◌, map};
ghost use Rattle.term_values.specs.ListParts.{has_first_atom, stands};
ghost use Rattle.term_text.specs.View.{written_atom_in, head_in, written_monomial_in, written_polynomial_in, written_array_in};
ghost use Rattle.term_text.specs.View.{written_list_in, base_in, list_base_in};
ghost use Rattle.term_values.specs.Checks.{atom_passes, monomial_passes, polynomial_passes, array_passes, list_passes};

use nf_terms::symbols::Sort;
use nf_terms::tree::Side;
use term_text::tree::{
    WrittenArray, WrittenAtom, WrittenBase, WrittenHead, WrittenList, WrittenListBase,
    WrittenMonomial, WrittenPolynomial,
};

/// A test of numbers, of numbers before an atom, and of names where a sort is needed.
pub trait Check {
    ghost use Rattle.std.specs.Prelude.{◌≡◌};
    ghost use Rattle.term_values.specs.Checks.{Test};

    /// What it tests.
    ghost test: { Self → Test };

    fn number(&self, digits: &[u8]) -> bool
        ensures { result ≡ (test self.now).number digits.now };

    fn factor(&self, digits: &[u8]) -> bool
        ensures { result ≡ (test self.now).factor digits.now };

    fn name(&self, wanted: Sort, side: Side, name: &[u8]) -> bool
        ensures { result ≡ (test self.now).name wanted side name.now };
}

#[cycle(checks)]
#[inline(always)]
fn atom_passes<C: Check>(check: &C, atom: &WrittenAtom<'_>) -> bool
    ensures { result ≡ atom_passes (C.test check.now) (written_atom_in atom.now) }
{
    match atom {
        WrittenAtom::Symbol(side, name) => check.name(Sort::Scalar, *side, name),
        WrittenAtom::Read(array, index) => {
            array_passes(check, array) && polynomial_passes(check, index)
        }
        WrittenAtom::Quotient(left, right) | WrittenAtom::Remainder(left, right) => {
            polynomial_passes(check, left) && polynomial_passes(check, right)
        }
    }
}

#[inline(always)]
fn has_more(atoms: &[WrittenAtom<'_>]) -> bool
    ensures { result ≡ has_first_atom (map written_atom_in atoms.now) }
{
    match atoms {
        [] => false,
        [_, ..] => true,
    }
}

// What a monomial begins with. A number stands before an atom where atoms follow it.
#[cycle(checks)]
#[inline(always)]
fn head_passes<C: Check>(check: &C, head: &WrittenHead<'_>, followed: bool) -> bool
    ensures { result ≡ (monomial_passes (C.test check.now) (head_in head.now)
        && stands (C.test check.now) (head_in head.now) followed) }
{
    match head {
        WrittenHead::Number(digits) => check.number(digits) && (!followed || check.factor(digits)),
        WrittenHead::One(atom) => atom_passes(check, atom),
    }
}

/// Whether each number and each name of a monomial passes.
#[cycle(checks)]
pub fn monomial_passes<C: Check>(check: &C, monomial: &WrittenMonomial<'_>) -> bool
    ensures { result ≡ monomial_passes (C.test check.now) (written_monomial_in monomial.now) }
{
    if !head_passes(check, &monomial.head, has_more(&monomial.atoms)) {
        return false;
    }
    for atom in &monomial.atoms {
        if !atom_passes(check, atom) {
            return false;
        }
    }
    true
}

/// Whether each number and each name of a polynomial passes.
#[cycle(checks)]
#[inline(never)]
pub fn polynomial_passes<C: Check>(check: &C, polynomial: &WrittenPolynomial<'_>) -> bool
    ensures { result ≡ polynomial_passes (C.test check.now) (written_polynomial_in polynomial.now) }
{
    for (_minus, monomial) in &polynomial.monomials {
        if !monomial_passes(check, monomial) {
            return false;
        }
    }
    true
}

fn base_passes<C: Check>(check: &C, base: &WrittenBase<'_>) -> bool
    ensures { result ≡ array_passes (C.test check.now) (base_in base.now) }
{
    match base {
        WrittenBase::Zero => true,
        WrittenBase::Symbol(side, name) => check.name(Sort::Array, *side, name),
    }
}

/// Whether each number and each name of an array passes.
#[cycle(checks)]
pub fn array_passes<C: Check>(check: &C, array: &WrittenArray<'_>) -> bool
    ensures { result ≡ array_passes (C.test check.now) (written_array_in array.now) }
{
    if !base_passes(check, &array.base) {
        return false;
    }
    for (index, value) in &array.writes {
        if !polynomial_passes(check, index) {
            return false;
        }
        if !polynomial_passes(check, value) {
            return false;
        }
    }
    true
}

fn list_base_passes<C: Check>(check: &C, base: &WrittenListBase<'_>) -> bool
    ensures { result ≡ list_passes (C.test check.now) (list_base_in base.now) }
{
    match base {
        WrittenListBase::Empty => true,
        WrittenListBase::Symbol(side, name) => check.name(Sort::List, *side, name),
    }
}

/// Whether each number and each name of a list passes.
pub fn list_passes<C: Check>(check: &C, list: &WrittenList<'_>) -> bool
    ensures { result ≡ list_passes (C.test check.now) (written_list_in list.now) }
{
    if !list_base_passes(check, &list.base) {
        return false;
    }
    for item in &list.items {
        if !polynomial_passes(check, item) {
            return false;
        }
    }
    true
}
