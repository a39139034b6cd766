//! The first state a transition of which uses more of a unit than is given, and that unit.

ghost use Rattle.std.specs.Prelude.{◌≡◌, nat_lt, map, option_map};
ghost use Rattle.fs_model.specs.View.{assignment_of, branch_of};
ghost use Rattle.hls_block_filling.specs.ItemUnits.{units_in, used_by};
ghost use Rattle.hls_block_filling.specs.Counted.{AreCounts};
ghost use Rattle.hls_block_filling.specs.Over.{over_of, over_among, over_in};

use crate::uses::used_by;
use fs_ast::machine::Machine;
use fs_model::parts::{Assign, Branch, StateId, VarId};
use hls_unit_counts::{Unit, Units};

// Whether assignments use more of a unit than is given.
fn is_over(units: &Units, assigns: &[Assign<VarId>], kind: Unit) -> bool
    ensures { result ≡ nat_lt (units_in units.now kind) (used_by (map assignment_of assigns.now) kind) }
{
    used_by(assigns, kind) > units.of(kind) as u64
}

// The first kind of which assignments use more than is given.
fn over_of(units: &Units, assigns: &[Assign<VarId>]) -> Option<Unit>
    ensures { result ≡ over_of (units_in units.now) (map assignment_of assigns.now) }
{
    if is_over(units, assigns, Unit::Add) {
        Some(Unit::Add)
    } else if is_over(units, assigns, Unit::Mul) {
        Some(Unit::Mul)
    } else if is_over(units, assigns, Unit::Div) {
        Some(Unit::Div)
    } else if is_over(units, assigns, Unit::Mem) {
        Some(Unit::Mem)
    } else {
        None
    }
}

// That of the first branch that uses more of one.
fn over_among(units: &Units, branches: &[Branch]) -> Option<Unit>
    ensures { result ≡ over_among (units_in units.now) (map branch_of branches.now) }
{
    for branch in branches {
        if let Some(kind) = over_of(units, branch.assigns.as_slice()) {
            return Some(kind);
        }
    }
    None
}

/// The first state, in order, a branch of which uses more of a unit than is given, with the first such unit of
/// its first such branch. Takes no memory.
pub fn over_in(m: &Machine, units: &Units) -> Option<(StateId, Unit)>
    ensures { option_map (λ p. (p.0.0, p.1)) result ≡ over_in (units_in units.now) m.now }
{
    for q in 0..m.state_count() {
        let state = StateId(q);
        if let Some(kind) = over_among(units, m.branches(state)) {
            return Some((state, kind));
        }
    }
    None
}

/// Reads each count, which lies below 2^32 by its type. Takes no memory.
pub fn see_counts(units: &Units)
    ensures { AreCounts (units_in units.now) }
{
    let _add = units.of(Unit::Add); // These calls tell the proof in which range each count lies.
    let _mul = units.of(Unit::Mul);
    let _div = units.of(Unit::Div);
    let _mem = units.of(Unit::Mem);
}
