//! The numbers of guards and assignments, in order of the text.

ghost use Rattle.std.specs.Prelude.{◌≡◌, ◌++◌, map, IfOk};
ghost use Rattle.std.specs.Result.{OnOk};
ghost use Rattle.fs_model.specs.View.{expression_of, guard_of, assignment_of};
ghost use Rattle.fs_model.specs.SoundMachines.{numbers_in, numbers_in_guard, numbers_in_condition, numbers_in_assignment};
ghost use Rattle.fs_model.specs.SoundMachines.{numbers_in_assignments, numbers_in_transitions, numbers_in_states};
ghost use Rattle.fs_branches.specs.NumberedParts.{resolved_transition, resolved_state};

use fs_branches::resolve::{State, Transition};
use fs_model::memory::push_value;
use fs_model::name::NoMemory;
use fs_model::parts::{Assign, Expr, Guard, VarId};
use std::alloc::Global;

/// The numbers of states.
pub fn constants_of(alloc: Global, states: &[State]) -> Result<Vec<i128>, NoMemory>
    ensures { IfOk result (λ out. out.items ≡ numbers_in_states (map resolved_state states.now)) }
{
    let mut out = Vec::new(alloc);
    for state in states {
        add_transitions(&mut out, state.lines.as_slice())?;
    }
    Ok(out)
}

fn add_transitions(out: &mut Vec<i128>, lines: &[Transition]) -> Result<(), NoMemory>
    ensures { OnOk result (out.new.items ≡ out.old.items ++ numbers_in_transitions (map resolved_transition lines.now)) }
{
    for line in lines {
        add_transition(out, line)?;
    }
    Ok(())
}

fn add_transition(out: &mut Vec<i128>, line: &Transition) -> Result<(), NoMemory>
    ensures { OnOk result
        (out.new.items ≡ out.old.items
        ++ (numbers_in_condition (resolved_transition line.now).guard
        ++ numbers_in_assignments (resolved_transition line.now).assignments)) }
{
    if let Some(guard) = &line.guard {
        add_guard(out, guard)?;
    }
    add_assigns(out, line.assigns.as_slice())
}

fn add_guard(out: &mut Vec<i128>, guard: &Guard<VarId>) -> Result<(), NoMemory>
    ensures { OnOk result (out.new.items ≡ out.old.items ++ numbers_in_guard (guard_of guard.now)) }
{
    match guard {
        Guard::Lit(lit) => {
            add_expr(out, &lit.left)?;
            add_expr(out, &lit.right)
        }
        Guard::Not(a) => add_guard(out, a),
        Guard::And(a, b) | Guard::Or(a, b) => {
            add_guard(out, a)?;
            add_guard(out, b)
        }
    }
}

fn add_assigns(out: &mut Vec<i128>, assigns: &[Assign<VarId>]) -> Result<(), NoMemory>
    ensures { OnOk result (out.new.items ≡ out.old.items ++ numbers_in_assignments (map assignment_of assigns.now)) }
{
    for assign in assigns {
        add_assign(out, assign)?;
    }
    Ok(())
}

fn add_assign(out: &mut Vec<i128>, assign: &Assign<VarId>) -> Result<(), NoMemory>
    ensures { OnOk result (out.new.items ≡ out.old.items ++ numbers_in_assignment (assignment_of assign.now)) }
{
    match assign {
        Assign::Set(_, value) => add_expr(out, value),
        Assign::Put(_, index, value) => {
            add_expr(out, index)?;
            add_expr(out, value)
        }
        Assign::Emit(_, value) => add_expr(out, value),
    }
}

fn add_expr(out: &mut Vec<i128>, expr: &Expr<VarId>) -> Result<(), NoMemory>
    ensures { OnOk result (out.new.items ≡ out.old.items ++ numbers_in (expression_of expr.now)) }
{
    match expr {
        Expr::Num(n) => push_value(out, *n),
        Expr::Var(_) => Ok(()),
        Expr::Read(_, index) => add_expr(out, index),
        Expr::Add(a, b) | Expr::Sub(a, b) | Expr::Mul(a, b) | Expr::Div(a, b) | Expr::Rem(a, b) => {
            add_expr(out, a)?;
            add_expr(out, b)
        }
        Expr::Neg(a) => add_expr(out, a),
    }
}
