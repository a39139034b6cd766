//! The parts of a fact, and whether it is solved.

ghost use Rattle.std.specs.Prelude.{◌≡◌, ◌<◌, ◌^◌, IfOk, length, map};
ghost use Rattle.std.specs.List.{position_from};
ghost use Rattle.nf_rel.specs.View.{literal_in};
ghost use Rattle.sym_facts.specs.Facts.{is_unsolved as unsolved};
ghost use Rattle.sym_facts.specs.FactParts.{with_equations as positions_with};
ghost use Rattle.sym_facts.specs.PositionSets.{with_symbols, symbols_of_equation, symbols_of_equations, symbols_of_literal};
ghost use Rattle.sym_facts.specs.PositionSets.{symbols_of_literals, bound_of as bound, mentioned_below, is_unsolved_in};
ghost use Rattle.sym_facts.specs.View.{position_in, set_in};

use crate::fact::FactPosition;
use crate::mentioned::{add_form, add_number};
use crate::position_set::PositionSet;
use fs_pair::positions::Position;
use nf_rel::literals::NLit;
use nf_symbols::shared_form::SharedForm;
use nf_terms::form::Nf;
use nf_terms::stop::NoMemory;
use std::alloc::Global;

/// An equation whose form has one owner. The one refusal is out of memory.
pub fn shared_equation(alloc: Global, equation: Option<Nf>) -> Result<Option<SharedForm>, NoMemory>
    ensures { IfOk result (λ shared. shared ≡ equation) }
{
    match equation {
        Some(form) => Ok(Some(SharedForm::of(alloc, form)?)),
        None => Ok(None),
    }
}

/// Equations whose forms have one owner each. The one refusal is out of memory.
pub fn shared_equations(
    alloc: Global,
    equations: Vec<Option<Nf>>,
) -> Result<Vec<Option<SharedForm>>, NoMemory>
    ensures { IfOk result (λ shared. shared.items ≡ equations.items) }
{
    let mut out = Vec::new(alloc);
    let mut rest = equations.into_iter();
    while let Some(equation) = rest.next() {
        out.push(shared_equation(alloc, equation)?)?;
    }
    Ok(out)
}

// A position with its equation, or free.
fn with_equation(p: &Position, equation: Option<SharedForm>) -> FactPosition
    ensures { position_in result ≡ record { pos = p.now.pos; sort = p.now.sort; equation = equation } }
{
    FactPosition {
        pos: p.pos,
        sort: p.sort,
        equation,
    }
}

/// Each position with its equation, or free. The one refusal is out of memory.
#[tactic(auto, using(crate::proofs::Walks::placed_all))]
pub fn with_equations(
    alloc: Global,
    positions: &[Position],
    equations: Vec<Option<SharedForm>>,
) -> Result<Vec<FactPosition>, NoMemory>
    ensures { IfOk result (λ out. map position_in out.items ≡ positions_with positions.now equations.items) }
{
    let mut out = Vec::new(alloc);
    let mut rest = equations.into_iter();
    for p in positions {
        match rest.next() {
            Some(equation) => out.push(with_equation(p, equation))?,
            None => return Ok(out),
        }
    }
    Ok(out)
}

// A bound on the numbers of positions.
fn bound_of(positions: &[FactPosition]) -> usize
    ensures { result ≡ bound (map position_in positions.now) }
{
    let mut least = 0;
    for position in positions {
        least = least.max(position.pos.var as usize + 1);
    }
    least
}

// Adds the positions that an equation mentions.
fn add_equation(mentioned: &mut PositionSet, position: &FactPosition)
    ensures { set_in mentioned.new ≡ with_symbols (set_in mentioned.old)
        (symbols_of_equation (position_in position.now).equation) }
{
    match &position.equation {
        Some(shared) => add_form(mentioned, shared.form()),
        None => {}
    }
}

// Adds the positions that equations mention.
#[tactic(auto, using(crate::proofs::MentionedPositions::joined, std::proofs::lemmas::Grind::common_steps))]
fn add_equations(mentioned: &mut PositionSet, positions: &[FactPosition])
    ensures { set_in mentioned.new ≡ with_symbols (set_in mentioned.old) (symbols_of_equations (map position_in positions.now)) }
{
    for position in positions {
        add_equation(mentioned, position);
    }
}

// Adds the positions that a literal mentions.
fn add_literal(mentioned: &mut PositionSet, literal: &NLit)
    ensures { set_in mentioned.new ≡ with_symbols (set_in mentioned.old) (symbols_of_literal (literal_in literal.now)) }
{
    match literal {
        NLit::Is(b) => add_number(mentioned, &b.dir),
        NLit::True | NLit::False => {}
    }
}

// Adds the positions that literals mention.
#[tactic(auto, using(crate::proofs::MentionedPositions::joined, std::proofs::lemmas::Grind::common_steps))]
fn add_literals(mentioned: &mut PositionSet, literals: &[NLit])
    ensures { set_in mentioned.new ≡ with_symbols (set_in mentioned.old) (symbols_of_literals (map literal_in literals.now)) }
{
    for literal in literals {
        add_literal(mentioned, literal);
    }
}

// Of some positions, those that their equations and literals mention.
fn mentioned_in(
    alloc: Global,
    positions: &[FactPosition],
    literals: &[NLit],
) -> Result<PositionSet, NoMemory>
    ensures { IfOk result
        (λ s. set_in s ≡ mentioned_below (bound (map position_in positions.now))
        (record { positions = map position_in positions.now; literals = map literal_in literals.now })) }
{
    let mut mentioned = PositionSet::new(alloc, bound_of(positions))?;
    add_equations(&mut mentioned, positions);
    add_literals(&mut mentioned, literals);
    Ok(mentioned)
}

// Whether a position has an equation and is mentioned.
fn is_unsolved(mentioned: &PositionSet, position: &FactPosition) -> bool
    ensures { result ≡ is_unsolved_in (set_in mentioned.now) (position_in position.now) }
{
    position.equation.is_some() && mentioned.contains(position.pos)
}

// The first position that has an equation and is mentioned.
fn first_unsolved_in(mentioned: &PositionSet, positions: &[FactPosition]) -> Option<u32>
    requires { length positions.now < 2 ^ 32 }
    ensures { result ≡ position_from (is_unsolved_in (set_in mentioned.now)) 0 (map position_in positions.now) }
{
    for (place, position) in positions.iter().enumerate() {
        if is_unsolved(mentioned, position) {
            return Some(place as u32);
        }
    }
    None
}

/// The first position that has an equation and is mentioned. The one refusal is out of memory.
pub fn first_unsolved(
    alloc: Global,
    positions: &[FactPosition],
    literals: &[NLit],
) -> Result<Option<u32>, NoMemory>
    requires { length positions.now < 2 ^ 32 }
    ensures { IfOk result
        (λ first. first ≡ position_from
        (unsolved (record { positions = map position_in positions.now; literals = map literal_in literals.now })) 0
        (map position_in positions.now)) }
{
    let mentioned = mentioned_in(alloc, positions, literals)?;
    Ok(first_unsolved_in(&mentioned, positions))
}
