//! New meanings of symbols that numbers are split into.

ghost use Rattle.std.specs.Prelude.{Some, option_map};
ghost use Rattle.nf_terms.specs.Computed.{Answers};
ghost use Rattle.sym_paths.specs.View.{answer_in_data};
ghost use Rattle.nf_substitution.specs.Vectors.{number_at};
ghost use Rattle.propagate_equations.specs.Equations.{split_off_symbol, less_rest, solution, second_pass_solution};
ghost use Rattle.propagate_equations.specs.View.{split_in, solution_in};

use crate::held_symbols::number_held;
use crate::splits::{Split, split_off};
use fs_model::parts::Sort;
use nf_substitution::subst::subst_poly;
use nf_substitution::vector::Vector;
use nf_sums::sums::sub;
use nf_terms::form::Nf;
use nf_terms::poly::Poly;
use nf_terms::stop::NfStop;
use nf_terms::symbols::Sort as TermSort;
use nf_terms::tree::Pos;
use std::alloc::Global;

/// A symbol with its new meaning.
#[derive(Drop)]
pub struct Solution {
    pub symbol: Pos,
    pub meaning: Poly,
}

// A position's symbol less the rest, or the rest less it.
fn less_rest(alloc: Global, positive: bool, p: Pos, rest: &Poly) -> Result<Poly, NfStop>
    ensures { Answers result (less_rest positive p rest.now) }
{
    let symbol = Poly::symbol(alloc, p)?;
    if positive {
        sub(alloc, &symbol, rest)
    } else {
        sub(alloc, rest, &symbol)
    }
}

// The new meaning of the symbol that is split off, where all symbols of the rest are held.
fn solution_of(
    alloc: Global,
    meanings: &Vector,
    p: Pos,
    parts: &Split,
) -> Result<Option<Solution>, NfStop>
    ensures { Answers (answer_in_data (option_map solution_in) result) (solution meanings.now p (Some (split_in parts.now))) }
{
    if !number_held(alloc, meanings, &parts.rest)? {
        return Ok(None);
    }
    let rest = subst_poly(alloc, &parts.rest, meanings)?;
    let meaning = less_rest(alloc, parts.positive, p, &rest)?;
    Ok(Some(Solution {
        symbol: parts.symbol,
        meaning,
    }))
}

// The same of a number, where a symbol is split off it.
fn number_solved(
    alloc: Global,
    meanings: &Vector,
    p: Pos,
    number: &Poly,
) -> Result<Option<Solution>, NfStop>
    ensures { Answers (answer_in_data (option_map solution_in) result)
        (solution meanings.now p (split_off_symbol meanings.now number.now)) }
{
    match split_off(alloc, meanings, number)? {
        Some(parts) => solution_of(alloc, meanings, p, &parts),
        None => Ok(None),
    }
}

// The same of the number that a vector has for a position: it is read where it stands.
fn value_solved(
    alloc: Global,
    v: &Vector,
    meanings: &Vector,
    p: Pos,
) -> Result<Option<Solution>, NfStop>
    ensures { Answers (answer_in_data (option_map solution_in) result)
        (solution meanings.now p (split_off_symbol meanings.now (number_at v.now p))) }
{
    match v.form(TermSort::Scalar, p) {
        Some(Nf::Num(number)) => number_solved(alloc, meanings, p, number),
        _ => {
            let symbol = Poly::symbol(alloc, p)?;
            number_solved(alloc, meanings, p, &symbol)
        }
    }
}

/// The symbol that a position can hold, with its new meaning, where the position is not free and is a number.
///
/// `Wide` and `Large` come exactly at the first operation that is not narrow, or narrow and not small: the substitution in the
/// rest, and then the difference. `NoMemory`: out of memory.
pub fn solve_position(
    alloc: Global,
    is_free: bool,
    v: &Vector,
    meanings: &Vector,
    sort: Sort,
    p: Pos,
) -> Result<Option<Solution>, NfStop>
    ensures { Answers (answer_in_data (option_map solution_in) result) (second_pass_solution is_free v.now meanings.now sort p) }
{
    if is_free {
        return Ok(None);
    }
    match sort {
        Sort::Scalar => value_solved(alloc, v, meanings, p),
        Sort::Array | Sort::Port => Ok(None),
    }
}
