//! What may tell arrivals of two machines apart.

use crate::flags::{flags_in, local_scalars};
use fs_cut::machine::Machine;
use fs_model::parts::{Role, Sort, VarId};
use fs_pair::positions::{Pairing, Position};
use fs_variable_sets::VariableSet;
use nf_rel::clashes::negate;
use nf_rel::kind::Kind;
use nf_rel::literals::NLit;
use nf_substitution::subst::Subst;
use nf_terms::poly::Poly;
use nf_terms::stop::NoMemory;
use nf_terms::tree::{Pos, Side};
use search_strengthening_terms::sorted::compare_literals;
use search_strengthening_terms::stop::unless_stopped;
use search_strengthening_terms::universe::{Condition, Universe};
use std::alloc::Global;
use std::cmp::Ordering;
use sym_facts::entailment::substitute_literal;
use sym_facts::start::start_fact;

// The most conditions that tell cases apart.
const CONDITION_LIMIT: usize = 256;

/// A condition over inputs and its negation, with the scalars that it speaks of, as variables of either machine.
#[derive(Drop)]
pub struct InputCondition {
    pub literal: NLit,
    pub negation: NLit,
    lefts: VariableSet,
    rights: VariableSet,
}

/// The scalars that matter at two points: each machine's own.
#[derive(Clone, Copy)]
pub struct Live {
    pub left: VariableSet,
    pub right: VariableSet,
}

// Whether a set has all variables of another one.
fn has_all(all: VariableSet, some: VariableSet) -> bool {
    some.without(all).bits == 0
}

impl InputCondition {
    /// Whether a condition matters where these scalars do: all that it speaks of matter to one of the machines.
    pub fn is_live(&self, live: Live) -> bool {
        has_all(live.left, self.lefts) || has_all(live.right, self.rights)
    }
}

/// Whether a scalar is among those that matter.
pub fn is_live(live: Live, pos: Pos) -> bool {
    match pos.side {
        Side::Left => live.left.contains(VarId(pos.var)),
        Side::Right => live.right.contains(VarId(pos.var)),
    }
}

/// What may tell arrivals of two machines apart: conditions over inputs of the left machine that a guard asks, flags, and all
/// local scalars.
#[derive(Drop)]
pub struct Told {
    pub conditions: Vec<InputCondition>,
    pub flags: Vec<Pos>,
    pub locals: Vec<Pos>,
}

// Whether the positions at places are all inputs.
fn are_inputs(positions: &[Position], places: &[usize]) -> bool {
    for place in places {
        match positions.get(*place) {
            Some(position) if position.role == Role::Input => {}
            _ => return false,
        }
    }
    true
}

// Whether a literal is a lower bound or an equality.
fn is_lower_or_equal(literal: &NLit) -> bool {
    match literal {
        NLit::Is(bound) => matches!(bound.kind, Kind::Ge | Kind::Eq),
        NLit::True | NLit::False => false,
    }
}

// Whether one of the conditions is this literal.
fn is_among(conditions: &[InputCondition], literal: &NLit) -> bool {
    for condition in conditions {
        if compare_literals(&condition.literal, literal) == Ordering::Equal {
            return true;
        }
    }
    false
}

// The variable of the other machine that has the name of a position.
fn partner_of(positions: &[Position], position: &Position) -> Option<VarId> {
    let partner = positions.get(position.partner? as usize)?;
    Some(VarId(partner.pos.var))
}

// A set and the variables of a side that scalars at places are.
fn scalars_at(positions: &[Position], places: &[usize], side: Side) -> VariableSet {
    let mut out = VariableSet::empty();
    for place in places {
        if let Some(position) = positions.get(*place) {
            if position.sort == Sort::Scalar {
                out = with_scalar(out, positions, position, side);
            }
        }
    }
    out
}

// A set and the variable of a side that a position is.
fn with_scalar(
    set: VariableSet,
    positions: &[Position],
    position: &Position,
    side: Side,
) -> VariableSet {
    if position.pos.side == side {
        return set.with(VarId(position.pos.var));
    }
    match partner_of(positions, position) {
        Some(variable) => set.with(variable),
        None => set,
    }
}

// Adds a literal over inputs at places and its negation, if it is a lower bound or an equality, and is not there.
fn push_condition(
    alloc: Global,
    positions: &[Position],
    places: &[usize],
    out: &mut Vec<InputCondition>,
    literal: NLit,
) -> Result<(), NoMemory> {
    if out.len() < CONDITION_LIMIT
        && is_lower_or_equal(&literal)
        && !is_among(out.as_slice(), &literal)
    {
        let negation = negate(literal.try_clone(alloc)?);
        out.push(InputCondition {
            literal,
            negation,
            lefts: scalars_at(positions, places, Side::Left),
            rights: scalars_at(positions, places, Side::Right),
        })?;
    }
    Ok(())
}

// Adds a condition, if it speaks of inputs alone, over inputs of the left machine.
fn add_condition(
    alloc: Global,
    s: &mut Subst<'_>,
    positions: &[Position],
    out: &mut Vec<InputCondition>,
    condition: &Condition,
) -> Result<(), NoMemory> {
    let places = condition.places.as_slice();
    if !are_inputs(positions, places) {
        return Ok(());
    }
    match unless_stopped(substitute_literal(alloc, s, &condition.literal))? {
        Some(literal) => push_condition(alloc, positions, places, out, literal),
        None => Ok(()),
    }
}

// Whether one of the conditions is a lower bound of a direction.
fn has_bound(conditions: &[InputCondition], dir: &Poly, bound: Option<i128>) -> bool {
    for condition in conditions {
        if let NLit::Is(other) = &condition.literal {
            if matches!(other.kind, Kind::Ge) && Some(other.bound) == bound && other.dir == *dir {
                return true;
            }
        }
    }
    false
}

// Whether a literal is asked by a text: a universe has with a lower bound of a guard also those that are 1 more or less.
fn is_asked(conditions: &[InputCondition], literal: &NLit) -> bool {
    match literal {
        NLit::Is(asked) if matches!(asked.kind, Kind::Ge) => {
            has_bound(conditions, &asked.dir, asked.bound.checked_sub(1))
                && has_bound(conditions, &asked.dir, asked.bound.checked_add(1))
        }
        _ => true,
    }
}

// For each condition whether it is asked by a text.
fn which_are_asked(alloc: Global, conditions: &[InputCondition]) -> Result<Vec<bool>, NoMemory> {
    let mut out = Vec::new(alloc);
    for condition in conditions {
        out.push(is_asked(conditions, &condition.literal))?;
    }
    Ok(out)
}

// The conditions that are asked by a text.
fn asked_conditions(
    alloc: Global,
    conditions: Vec<InputCondition>,
) -> Result<Vec<InputCondition>, NoMemory> {
    let asked = which_are_asked(alloc, conditions.as_slice())?;
    let mut out = Vec::new(alloc);
    for (place, condition) in conditions.into_iter().enumerate() {
        if asked.get(place) == Some(&true) {
            out.push(condition)?;
        }
    }
    Ok(out)
}

// The conditions of a universe that speak of inputs alone, over inputs of the left machine.
fn input_conditions(
    alloc: Global,
    p: &Pairing,
    universe: &Universe,
) -> Result<Vec<InputCondition>, NoMemory> {
    let fact = start_fact(alloc, p)?;
    let vector = fact.vector(alloc)?;
    let mut s = Subst::new(alloc, &vector);
    let mut out = Vec::new(alloc);
    for condition in &universe.literals {
        add_condition(alloc, &mut s, p.positions(), &mut out, condition)?;
    }
    Ok(out)
}

// The positions of variables of both machines.
fn positions_in(
    alloc: Global,
    positions: &[Position],
    left: VariableSet,
    right: VariableSet,
) -> Result<Vec<Pos>, NoMemory> {
    let mut out = Vec::new(alloc);
    for position in positions {
        let variable = VarId(position.pos.var);
        let is_in = match position.pos.side {
            Side::Left => left.contains(variable),
            Side::Right => right.contains(variable),
        };
        if is_in {
            out.push(position.pos)?;
        }
    }
    Ok(out)
}

/// What may tell arrivals of two machines apart. The one refusal is out of memory.
pub fn told_of(
    alloc: Global,
    a: &Machine,
    b: &Machine,
    p: &Pairing,
    universe: &Universe,
) -> Result<Told, NoMemory> {
    let positions = p.positions();
    Ok(Told {
        conditions: asked_conditions(alloc, input_conditions(alloc, p, universe)?)?,
        flags: positions_in(alloc, positions, flags_in(a), flags_in(b))?,
        locals: positions_in(alloc, positions, local_scalars(a), local_scalars(b))?,
    })
}
