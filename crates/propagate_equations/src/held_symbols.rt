//! Symbols for which new meanings stand.

ghost use Rattle.std.specs.Prelude.{◌≡◌, IfOk};
ghost use Rattle.std.specs.List.{list_all};
ghost use Rattle.nf_rel.specs.View.{literal_in};
ghost use Rattle.propagate_equations.specs.Equations.{is_held, number_held, form_held, literal_held};

use nf_rel::literals::NLit;
use nf_substitution::vector::Vector;
use nf_terms::form::Nf;
use nf_terms::poly::Poly;
use nf_terms::stop::NoMemory;
use nf_terms::symbols::Sort;
use nf_terms::tree::Pos;
use std::alloc::Global;
use sym_facts::gathering::{symbols_of_nf, symbols_of_poly};

/// Whether a symbol is held: a new meaning stands for it.
pub fn is_held(meanings: &Vector, p: Pos, sort: Sort) -> bool
    ensures { result ≡ is_held meanings.now (p, sort) }
{
    meanings.form(sort, p).is_some()
}

// Whether these symbols are held.
fn are_held(meanings: &Vector, symbols: &[(Pos, Sort)]) -> bool
    ensures { result ≡ list_all (is_held meanings.now) symbols.now }
{
    for (p, sort) in symbols {
        if !is_held(meanings, *p, *sort) {
            return false;
        }
    }
    true
}

/// Whether all symbols of a number are held. The one refusal is out of memory.
pub fn number_held(alloc: Global, meanings: &Vector, number: &Poly) -> Result<bool, NoMemory>
    ensures { IfOk result (λ b. b ≡ number_held meanings.now number.now) }
{
    let symbols = symbols_of_poly(alloc, number)?;
    Ok(are_held(meanings, symbols.as_slice()))
}

/// Whether all symbols of a form are held. The one refusal is out of memory.
pub fn form_held(alloc: Global, meanings: &Vector, form: &Nf) -> Result<bool, NoMemory>
    ensures { IfOk result (λ b. b ≡ form_held meanings.now form.now) }
{
    let symbols = symbols_of_nf(alloc, form)?;
    Ok(are_held(meanings, symbols.as_slice()))
}

/// Whether all symbols of a literal are held. The one refusal is out of memory.
pub fn literal_held(alloc: Global, meanings: &Vector, literal: &NLit) -> Result<bool, NoMemory>
    ensures { IfOk result (λ b. b ≡ literal_held meanings.now (literal_in literal.now)) }
{
    match literal {
        NLit::True | NLit::False => Ok(true),
        NLit::Is(bound) => number_held(alloc, meanings, &bound.dir),
    }
}
