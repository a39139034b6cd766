//! The fact that a post carries on.

ghost use Rattle.std.specs.Prelude.{◌≡◌, [], false, map, is_some, IfOk};
ghost use Rattle.nf_terms.specs.Computed.{Answers};
ghost use Rattle.sym_paths.specs.View.{answer_in_data, post_in};
ghost use Rattle.sym_facts.specs.View.{position_in};
ghost use Rattle.propagate.specs.Rebases.{symbol_found, equation_found, rebase as rebased};
ghost use Rattle.propagate.specs.RebaseSteps.{with_found, first_pass_from, second_turn, second_from, equation_given};
ghost use Rattle.propagate.specs.RebaseSteps.{freed_by_rebase};
ghost use Rattle.propagate.specs.RebaseSteps.{third_from, LeadsToRebase};

use fs_pair::positions::{Pairing, Position};
use nf_substitution::shared_form::SharedForm;
use nf_substitution::subst::Subst;
use nf_substitution::vector::Vector;
use nf_terms::form::Nf;
use nf_terms::stop::{NfStop, NoMemory};
use nf_terms::tree::Pos;
use propagate_equations::bare_symbols::bare_symbol;
use propagate_equations::conditions::conditions_kept;
use propagate_equations::equations::equation_found;
use propagate_equations::held_symbols::is_held;
use propagate_equations::solutions::solve_position;
use propagate_equations::values::{sort_of_terms, value_at};
use std::alloc::Global;
use sym_facts::fact::{Fact, FactPosition, own_symbol};
use sym_paths::execution::Post;

// A position, and whether it is free.
#[derive(Clone, Copy)]
struct Marked {
    position: Position,
    is_free: bool,
}

// The symbol that is not held and that the value of a position is.
fn symbol_found(v: &Vector, meanings: &Vector, p: &Position) -> Option<Pos>
    ensures { result ≡ symbol_found v.now meanings.now p.now.sort p.now.pos }
{
    match bare_symbol(v, p.sort, p.pos) {
        Some(x) => {
            if is_held(meanings, x, sort_of_terms(p.sort)) {
                None
            } else {
                Some(x)
            }
        }
        None => None,
    }
}

// Whether a position holds the symbol that its value is. Its own symbol is then the new meaning.
fn holds_symbol(
    alloc: Global,
    v: &Vector,
    meanings: &mut Vector,
    p: &Position,
) -> Result<bool, NoMemory>
    ensures free { IfOk result (λ b. b ≡ is_some (symbol_found v.now meanings.old p.now.sort p.now.pos)) }
    ensures meanings { IfOk result
        (λ b. meanings.new ≡ with_found (symbol_found v.now meanings.old p.now.sort p.now.pos) p.now.sort p.now.pos
        meanings.old) }
{
    match symbol_found(v, meanings, p) {
        Some(x) => {
            meanings.put(x, own_symbol(alloc, p.sort, p.pos)?)?;
            Ok(true)
        }
        None => Ok(false),
    }
}

// The first pass: which positions hold the symbols that their values are.
fn first_pass(
    alloc: Global,
    v: &Vector,
    meanings: &mut Vector,
    positions: &[Position],
) -> Result<Vec<Marked>, NoMemory>
    ensures positions { IfOk result (λ out. map (λ m. m.position) out.items ≡ positions.now) }
    ensures held { IfOk result
        (λ out. first_pass_from v.now positions.now meanings.old ≡ record {
          free = map (λ m. m.is_free) out.items;
          meanings = meanings.new;
        }) }
{
    let mut out = Vec::new(alloc);
    for p in positions {
        let is_free = holds_symbol(alloc, v, meanings, p)?;
        out.push(Marked {
            position: *p,
            is_free,
        })?;
    }
    Ok(out)
}

// Whether a position is free after the second pass. The symbol that it comes to hold gets its new meaning.
fn holds_solution(
    alloc: Global,
    v: &Vector,
    meanings: &mut Vector,
    marked: &Marked,
) -> Result<bool, NfStop>
    ensures { Answers (answer_in_data (λ b. record { is_free = b; meanings = meanings.new }) result)
        (second_turn marked.now.is_free v.now meanings.old marked.now.position.sort marked.now.position.pos) }
{
    let position = marked.position;
    match solve_position(
        alloc,
        marked.is_free,
        v,
        meanings,
        position.sort,
        position.pos,
    )? {
        Some(solution) => {
            meanings.put(solution.symbol, Nf::Num(solution.meaning))?;
            Ok(true)
        }
        None => Ok(marked.is_free),
    }
}

// The second pass: which numbers hold a symbol that they are with held symbols.
fn second_pass(
    alloc: Global,
    v: &Vector,
    meanings: &mut Vector,
    positions: &[Marked],
) -> Result<Vec<Marked>, NfStop>
    ensures positions { IfOk result (λ out. map (λ m. m.position) out.items ≡ map (λ m. m.position) positions.now) }
    ensures held { Answers
        (answer_in_data (λ out. record { free = map (λ m. m.is_free) out.items; meanings = meanings.new }) result)
        (second_from v.now (map (λ m. m.position) positions.now) (map (λ m. m.is_free) positions.now) meanings.old) }
{
    let mut out = Vec::new(alloc);
    for marked in positions {
        let is_free = holds_solution(alloc, v, meanings, marked)?;
        out.push(Marked {
            position: marked.position,
            is_free,
        })?;
    }
    Ok(out)
}

// The equation of a position with this value. Where it gets none it is freed.
fn equation_or_freed(
    alloc: Global,
    s: &mut Subst<'_>,
    v: &Vector,
    meanings: &Vector,
    position: Position,
    value: &SharedForm,
    freed: &mut Vec<Position>,
) -> Result<Option<SharedForm>, NfStop>
    requires { s.old.vector ≡ meanings.now }
    ensures answers { Answers result (equation_found v.now meanings.now value.now freed.old.items) }
    ensures freed { IfOk result (λ o. freed.new.items ≡ freed_by_rebase false position o freed.old.items) }
    ensures vector { s.new.vector ≡ s.old.vector }
{
    if let Some(equation) = equation_found(alloc, s, v, meanings, value, freed.as_slice())? {
        return Ok(Some(equation));
    }
    freed.push(position)?;
    Ok(None)
}

// The equation of a position that is not free yet. Where it gets none it is freed.
fn equation_given(
    alloc: Global,
    s: &mut Subst<'_>,
    v: &Vector,
    meanings: &Vector,
    marked: &Marked,
    freed: &mut Vec<Position>,
) -> Result<Option<SharedForm>, NfStop>
    requires { s.old.vector ≡ meanings.now }
    ensures answers { Answers result (equation_given marked.now.is_free v.now meanings.now marked.now.position freed.old.items) }
    ensures freed { IfOk result
        (λ o. freed.new.items ≡ freed_by_rebase marked.now.is_free marked.now.position o freed.old.items) }
    ensures vector { s.new.vector ≡ s.old.vector }
{
    if marked.is_free {
        return Ok(None);
    }
    let position = marked.position;
    let value = value_at(alloc, v, position.sort, &position.pos)?;
    equation_or_freed(alloc, s, v, meanings, position, &value, freed)
}

// The third pass: the equations of the other positions.
fn third_pass(
    alloc: Global,
    s: &mut Subst<'_>,
    v: &Vector,
    meanings: &Vector,
    positions: &[Marked],
) -> Result<Vec<FactPosition>, NfStop>
    requires { s.old.vector ≡ meanings.now }
    ensures answers { Answers (answer_in_data (λ out. map position_in out.items) result)
        (third_from v.now meanings.now (map (λ m. m.position) positions.now) (map (λ m. m.is_free) positions.now) []) }
    ensures vector { s.new.vector ≡ s.old.vector }
{
    let mut freed = Vec::new(alloc);
    let mut out = Vec::new(alloc);
    for marked in positions {
        let equation = equation_given(alloc, s, v, meanings, marked, &mut freed)?;
        out.push(FactPosition {
            pos: marked.position.pos,
            sort: marked.position.sort,
            equation,
        })?;
    }
    Ok(out)
}

// The fact over the meanings that two passes have given to symbols, by a substitution of these.
fn fact_by(
    alloc: Global,
    s: &mut Subst<'_>,
    post: &Post,
    p: &Pairing,
    meanings: &Vector,
    positions: &[Marked],
) -> Result<Fact, NfStop>
    requires vector { s.old.vector ≡ meanings.now }
    requires leads { LeadsToRebase (post_in post.now) p.now positions.now meanings.now }
    ensures { Answers result (rebased (post_in post.now) p.now) }
{
    p.holds();
    let positions = third_pass(alloc, s, &post.vector, meanings, positions)?;
    let conds = conditions_kept(alloc, s, meanings, post.conds.as_slice())?;
    Ok(Fact::of(positions, conds))
}

// The fact over the meanings that two passes have given to symbols.
fn fact_over(
    alloc: Global,
    post: &Post,
    p: &Pairing,
    meanings: &Vector,
    positions: &[Marked],
) -> Result<Fact, NfStop>
    requires { LeadsToRebase (post_in post.now) p.now positions.now meanings.now }
    ensures { Answers result (rebased (post_in post.now) p.now) }
{
    let mut s = Subst::new(alloc, meanings);
    fact_by(alloc, &mut s, post, p, meanings, positions)
}

// The fact that a post carries on, from no meanings yet.
fn rebase_from(
    alloc: Global,
    post: &Post,
    p: &Pairing,
    meanings: &mut Vector,
) -> Result<Fact, NfStop>
    requires { meanings.old ≡ [] }
    ensures { Answers result (rebased (post_in post.now) p.now) }
{
    let first = first_pass(alloc, &post.vector, meanings, p.positions())?;
    let second = second_pass(alloc, &post.vector, meanings, first.as_slice())?;
    fact_over(alloc, post, p, meanings, second.as_slice())
}

/// The fact whose symbols are the values where a post leads. In each pass the positions are taken in order. First a position
/// whose value is a symbol that no position holds yet holds it and is free. Then a number that is such a symbol, or its negation,
/// and symbols that are held, holds that symbol. Each other position gets its value over the held symbols as its equation, or
/// else the first position freed here from which it differs by held symbols alone, or else is free. The literals are the first 64
/// conditions whose symbols are all held, over the held symbols, without those that are true and without repeats.
///
/// `Wide` and `Large` come exactly at the first operation that is not narrow, or narrow and not small: those of the second pass
/// come first, then those of the third, then those of the conditions. `NoMemory`: out of memory.
pub fn rebase(alloc: Global, post: &Post, p: &Pairing) -> Result<Fact, NfStop>
    ensures { Answers result (rebased (post_in post.now) p.now) }
{
    let mut meanings = Vector::new(alloc);
    rebase_from(alloc, post, p, &mut meanings)
}
