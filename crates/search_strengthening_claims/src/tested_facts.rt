//! Facts of parts of which nothing is known.

ghost use Rattle.std.specs.Prelude.{◌≡◌, map, IfOk, IfSome};
ghost use Rattle.std.specs.List.{list_all};
ghost use Rattle.nf_terms.specs.TermSorts.{same_term_sort as same};
ghost use Rattle.nf_rel.specs.View.{literal_in};
ghost use Rattle.sym_facts.specs.Facts.{has_its_sort, may_be_kept, sort_of_terms as terms_of_sort};
ghost use Rattle.sym_facts.specs.Pairings.{IsFactOf, is_position, literal_within};
ghost use Rattle.sym_facts.specs.FactParts.{equation_within, with_equations};

use fs_model::parts::Sort;
use fs_pair::positions::{Pairing, Position};
use nf_rel::literals::NLit;
use nf_rel::normal::is_normal;
use nf_terms::form::Nf;
use nf_terms::stop::NoMemory;
use nf_terms::symbols::Sort as TermSort;
use nf_terms::tree::Pos;
use std::alloc::Global;
use sym_facts::fact::{Fact, FactError};
use sym_facts::gathering::{symbols_of_nf, symbols_of_poly};

/// The most literals of a fact.
pub const LITERAL_LIMIT: usize = 64;

// Whether a term of a sort stands for variables of another.
fn is_of_sort(sort: Sort, terms: TermSort) -> bool
    ensures { result ≡ same (terms_of_sort sort) terms }
{
    match sort {
        Sort::Scalar => matches!(terms, TermSort::Scalar),
        Sort::Array => matches!(terms, TermSort::Array),
        Sort::Port => matches!(terms, TermSort::List),
    }
}

// Whether a symbol is a position and is used in its sort.
fn is_position(positions: &[Position], symbol: &(Pos, TermSort)) -> bool
    ensures { result ≡ is_position positions.now symbol.now }
{
    for position in positions {
        if position.pos == symbol.0 && is_of_sort(position.sort, symbol.1) {
            return true;
        }
    }
    false
}

// Whether symbols are positions and are used in their sorts.
fn are_positions(positions: &[Position], symbols: &[(Pos, TermSort)]) -> bool
    ensures { result ≡ list_all (is_position positions.now) symbols.now }
{
    for symbol in symbols {
        if !is_position(positions, symbol) {
            return false;
        }
    }
    true
}

// Whether the symbols of an equation are positions and are used in their sorts.
fn is_equation_within(
    alloc: Global,
    positions: &[Position],
    equation: &Option<Nf>,
) -> Result<bool, NoMemory>
    ensures { IfOk result (λ b. b ≡ equation_within (is_position positions.now) equation.now) }
{
    match equation {
        Some(form) => {
            let symbols = symbols_of_nf(alloc, form)?;
            Ok(are_positions(positions, symbols.as_slice()))
        }
        None => Ok(true),
    }
}

// Whether the symbols of equations are positions and are used in their sorts.
fn are_equations_within(
    alloc: Global,
    positions: &[Position],
    equations: &[Option<Nf>],
) -> Result<bool, NoMemory>
    ensures { IfOk result (λ b. b ≡ list_all (equation_within (is_position positions.now)) equations.now) }
{
    for equation in equations {
        if !is_equation_within(alloc, positions, equation)? {
            return Ok(false);
        }
    }
    Ok(true)
}

// Whether the symbols of a literal are positions and are used in their sorts.
fn is_literal_within(
    alloc: Global,
    positions: &[Position],
    literal: &NLit,
) -> Result<bool, NoMemory>
    ensures { IfOk result (λ b. b ≡ literal_within (is_position positions.now) (literal_in literal.now)) }
{
    match literal {
        NLit::True | NLit::False => Ok(true),
        NLit::Is(b) => {
            let symbols = symbols_of_poly(alloc, &b.dir)?;
            Ok(are_positions(positions, symbols.as_slice()))
        }
    }
}

// Whether the symbols of literals are positions and are used in their sorts.
fn are_literals_within(
    alloc: Global,
    positions: &[Position],
    literals: &[NLit],
) -> Result<bool, NoMemory>
    ensures { IfOk result (λ b. b ≡ list_all (literal_within (is_position positions.now)) (map literal_in literals.now)) }
{
    for literal in literals {
        if !is_literal_within(alloc, positions, literal)? {
            return Ok(false);
        }
    }
    Ok(true)
}

// Whether a fact may have a literal: it is in normal form and not true.
fn may_be_kept(literal: &NLit) -> bool
    ensures { result ≡ may_be_kept (literal_in literal.now) }
{
    !matches!(literal, NLit::True) && is_normal(literal)
}

// Whether a fact may have literals.
fn all_may_be_kept(literals: &[NLit]) -> bool
    ensures { result ≡ list_all may_be_kept (map literal_in literals.now) }
{
    for literal in literals {
        if !may_be_kept(literal) {
            return false;
        }
    }
    true
}

// Whether the form of an equation is of the sort of its position.
fn has_its_sort(sort: Sort, equation: &Option<Nf>) -> bool
    ensures { result ≡ has_its_sort sort equation.now }
{
    match equation {
        Some(form) => is_of_sort(sort, form.sort()),
        None => true,
    }
}

// Whether the forms of equations are of the sorts of their positions.
fn have_their_sorts(positions: &[Position], equations: &[Option<Nf>]) -> bool
    ensures { result ≡ list_all (λ q. has_its_sort q.sort q.equation) (with_equations positions.now equations.now) }
{
    let mut left = positions;
    let mut rest = equations;
    'pairs: while let Some((position, later)) = left.split_first() {
        let Some((equation, others)) = rest.split_first() else {
            return true;
        };
        if !has_its_sort(position.sort, equation) {
            return false;
        }
        left = later;
        rest = others;
    }
    true
}

/// The fact of these parts: one entry a position, and the literals. None where they make no fact of the pairing: another number
/// of entries, an entry of another sort than its position, a symbol that is no position, a position that has an entry and is
/// mentioned, more than 64 literals, or one that is true or not in normal form. The one refusal is out of memory.
pub fn tested_fact(
    alloc: Global,
    p: &Pairing,
    equations: Vec<Option<Nf>>,
    literals: Vec<NLit>,
) -> Result<Option<Fact>, NoMemory>
    ensures { IfOk result (λ found. IfSome found (IsFactOf p.now)) }
{
    let positions = p.positions();
    if equations.len() != positions.len()
        || literals.len() > LITERAL_LIMIT
        || !have_their_sorts(positions, equations.as_slice())
        || !all_may_be_kept(literals.as_slice())
        || !are_equations_within(alloc, positions, equations.as_slice())?
        || !are_literals_within(alloc, positions, literals.as_slice())?
    {
        return Ok(None);
    }
    match Fact::new(alloc, p, equations, literals) {
        Ok(fact) => Ok(Some(fact)),
        Err(FactError::NotSolved { .. }) => Ok(None),
        Err(FactError::NoMemory) => Err(NoMemory),
    }
}
