//! The units that items use.

ghost use Rattle.std.specs.Prelude.{◌≡◌, ◌+◌, map};
ghost use Rattle.fs_model.specs.View.{expression_of, assignment_of};
ghost use Rattle.hls_block_filling.specs.ItemUnits.{one_of, used_by_expression, used_by_assignment, used_by, units_in, suffice};
ghost use Rattle.hls_unit_counts.specs.declared.units.Unit.{Unit as Kind};
ghost use Rattle.hls_block_filling.specs.Profiles.{units_of_uses, capped_count};

use fs_model::parts::{Assign, Expr, VarId};
use hls_unit_counts::{Unit, Units};

/// How many units of each kind are used, each at most `u64::MAX`.
#[derive(Clone, Copy)]
pub struct Uses {
    pub add: u64,
    pub mul: u64,
    pub div: u64,
    pub mem: u64,
}

// One where two kinds are the same.
fn one_of(used: Unit, kind: Unit) -> u64
    ensures { result ≡ one_of used kind }
{
    if used == kind { 1 } else { 0 }
}

// Two counts together, at most `u64::MAX`.
fn both(left: u64, right: u64) -> u64
    ensures { result ≡ capped_count (left + right) }
{
    left.saturating_add(right)
}

// How many units of a kind an expression uses.
fn used_by_expression(expr: &Expr<VarId>, kind: Unit) -> u64
    ensures { result ≡ capped_count (used_by_expression (expression_of expr.now) kind) }
{
    match expr {
        Expr::Num(_) | Expr::Var(_) => 0,
        Expr::Read(_, index) => {
            one_of(Unit::Mem, kind).saturating_add(used_by_expression(index, kind))
        }
        Expr::Add(a, b) | Expr::Sub(a, b) => {
            one_of(Unit::Add, kind).saturating_add(both(
                used_by_expression(a, kind),
                used_by_expression(b, kind),
            ))
        }
        Expr::Mul(a, b) => one_of(Unit::Mul, kind).saturating_add(both(
            used_by_expression(a, kind),
            used_by_expression(b, kind),
        )),
        Expr::Div(a, b) | Expr::Rem(a, b) => {
            one_of(Unit::Div, kind).saturating_add(both(
                used_by_expression(a, kind),
                used_by_expression(b, kind),
            ))
        }
        Expr::Neg(a) => one_of(Unit::Add, kind).saturating_add(used_by_expression(a, kind)),
    }
}

// How many units of a kind an assignment uses.
fn used_by_assignment(assign: &Assign<VarId>, kind: Unit) -> u64
    ensures { result ≡ capped_count (used_by_assignment (assignment_of assign.now) kind) }
{
    match assign {
        Assign::Set(_, value) | Assign::Emit(_, value) => used_by_expression(value, kind),
        Assign::Put(_, index, value) => {
            one_of(Unit::Mem, kind).saturating_add(both(
                used_by_expression(index, kind),
                used_by_expression(value, kind),
            ))
        }
    }
}

/// How many units of a kind assignments use, at most `u64::MAX`.
pub fn used_by(assigns: &[Assign<VarId>], kind: Unit) -> u64
    ensures { result ≡ capped_count (used_by (map assignment_of assigns.now) kind) }
{
    let mut used = 0u64;
    for assign in assigns {
        used = used.saturating_add(used_by_assignment(assign, kind));
    }
    used
}

/// How many units of each kind assignments use, each at most `u64::MAX`.
pub fn uses_of(assigns: &[Assign<VarId>]) -> Uses
    ensures { (kind : Kind) → units_of_uses result kind ≡ capped_count (used_by (map assignment_of assigns.now) kind) }
{
    let add = used_by(assigns, Unit::Add);
    let mul = used_by(assigns, Unit::Mul);
    let div = used_by(assigns, Unit::Div);
    let mem = used_by(assigns, Unit::Mem);
    Uses { add, mul, div, mem }
}

/// Whether units suffice for what is used and more.
pub fn suffice(units: &Units, used: &Uses, more: &Uses) -> bool
    ensures { result ≡ suffice (units_in units.now) (units_of_uses used.now) (units_of_uses more.now) }
{
    used.add.saturating_add(more.add) <= units.add as u64
        && used.mul.saturating_add(more.mul) <= units.mul as u64
        && used.div.saturating_add(more.div) <= units.div as u64
        && used.mem.saturating_add(more.mem) <= units.mem as u64
}
