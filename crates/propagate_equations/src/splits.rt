//! Numbers that are a symbol, as it is or negated, and a rest.

ghost use Rattle.std.specs.Prelude.{◌≡◌, ◌+◌, ◌<◌, ◌++◌, length, map, option_map, take, drop, IfOk, OnOk};
ghost use Rattle.nf_trees.specs.NormalTerms.{polynomial_of};
ghost use Rattle.nf_terms.specs.Normal.{IsNormal};
ghost use Rattle.nf_trees.specs.View.{monomial_in, term_in};
ghost use Rattle.propagate_equations.specs.Equations.{split_off_symbol};
ghost use Rattle.propagate_equations.specs.EquationSteps.{signed_term};
ghost use Rattle.propagate_equations.specs.View.{split_in};

use crate::held_symbols::is_held;
use nf_substitution::bare_numbers::lone_symbol;
use nf_substitution::vector::Vector;
use nf_sums::copies::push_term_copy;
use nf_terms::poly::Poly;
use nf_terms::stop::NoMemory;
use nf_terms::symbols::Sort;
use nf_trees::tree::{MonoTree, PolyTree, Pos};
use std::alloc::Global;

/// A symbol, as it is or negated.
#[derive(Clone, Copy)]
pub struct Signed {
    pub symbol: Pos,
    pub positive: bool,
}

/// A symbol, as it is or negated, and the rest of a number.
#[derive(Drop)]
pub struct Split {
    pub symbol: Pos,
    pub positive: bool,
    pub rest: Poly,
}

// The symbol that is not held and that a monomial is, where its coefficient is 1 or -1.
fn signed_term(meanings: &Vector, mono: &MonoTree, coefficient: &i128) -> Option<Signed>
    ensures { result ≡ signed_term meanings.now (monomial_in mono.now, coefficient.now) }
{
    let symbol = lone_symbol(mono)?;
    if is_held(meanings, symbol, Sort::Scalar) {
        return None;
    }
    if *coefficient == 1 {
        return Some(Signed {
            symbol,
            positive: true,
        });
    }
    if *coefficient == -1 {
        return Some(Signed {
            symbol,
            positive: false,
        });
    }
    None
}

// Adds copies of terms. The one refusal is out of memory.
fn push_terms(
    alloc: Global,
    out: &mut Vec<(MonoTree, i128)>,
    terms: &[(MonoTree, i128)],
) -> Result<(), NoMemory>
    ensures { OnOk result (map term_in out.new.items ≡ map term_in out.old.items ++ map term_in terms.now) }
{
    for (mono, coefficient) in terms {
        push_term_copy(alloc, out, mono, coefficient)?;
    }
    Ok(())
}

// The number of a normal list of terms.
fn from_terms(monos: Vec<(MonoTree, i128)>) -> Poly
    requires { IsNormal (polynomial_of (map term_in monos.items)) }
    ensures { result ≡ polynomial_of (map term_in monos.items) }
{
    Poly::from_normal(PolyTree { monos })
}

// The number without one of its terms: no operation, and so no event.
fn without(alloc: Global, terms: &[(MonoTree, i128)], place: usize) -> Result<Poly, NoMemory>
    requires within { place < length terms.now }
    requires normal { IsNormal (polynomial_of (map term_in terms.now)) }
    ensures { IfOk result
        (λ p. p ≡ polynomial_of (map term_in (take place terms.now) ++ map term_in (drop (place + 1) terms.now))) }
{
    let mut monos = Vec::new(alloc);
    push_terms(alloc, &mut monos, &terms[..place])?;
    push_terms(alloc, &mut monos, &terms[place + 1..])?;
    Ok(from_terms(monos))
}

/// The first symbol alone of a number that is not held, with the coefficient 1 or -1, and the rest. The one refusal is out of
/// memory.
pub fn split_off(alloc: Global, meanings: &Vector, number: &Poly) -> Result<Option<Split>, NoMemory>
    ensures { IfOk result (λ o. option_map split_in o ≡ split_off_symbol meanings.now number.now) }
{
    let terms = number.monos();
    for (place, (mono, coefficient)) in terms.iter().enumerate() {
        if let Some(found) = signed_term(meanings, mono, coefficient) {
            return Ok(Some(Split {
                symbol: found.symbol,
                positive: found.positive,
                rest: without(alloc, terms, place)?,
            }));
        }
    }
    Ok(None)
}
