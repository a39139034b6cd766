//! The flags of a machine.

use fs_cut::machine::Machine;
use fs_model::parts::{Assign, Branch, Expr, Role, Sort, StateId, VarId, VarInfo};
use fs_variable_sets::VariableSet;

// Whether a variable is a local scalar.
fn is_local_scalar(variable: &VarInfo) -> bool {
    variable.role == Role::Local && variable.sort == Sort::Scalar
}

/// The local scalars of a machine.
pub(crate) fn local_scalars(m: &Machine) -> VariableSet {
    let mut locals = VariableSet::empty();
    for (number, variable) in m.vars().iter().enumerate() {
        if is_local_scalar(variable) && number < 128 {
            locals = locals.with(VarId(number as u32));
        }
    }
    locals
}

// Whether an expression is a number, or the negation of one.
fn is_number(e: &Expr<VarId>) -> bool {
    match e {
        Expr::Num(_) => true,
        Expr::Neg(i) => matches!(**i, Expr::Num(_)),
        _ => false,
    }
}

// Whether an expression is a number or one of these flags.
fn is_flag_value(flags: VariableSet, e: &Expr<VarId>) -> bool {
    match e {
        Expr::Var(x) => flags.contains(*x),
        _ => is_number(e),
    }
}

// The variables that assignments give another value than a number or one of these flags.
fn others_in_assigns(flags: VariableSet, assigns: &[Assign<VarId>]) -> VariableSet {
    let mut others = VariableSet::empty();
    for assign in assigns {
        if let Assign::Set(x, e) = assign {
            if !is_flag_value(flags, e) {
                others = others.with(*x);
            }
        }
    }
    others
}

// The variables that branches give another value than a number or one of these flags.
fn others_in_branches(flags: VariableSet, branches: &[Branch]) -> VariableSet {
    let mut others = VariableSet::empty();
    for branch in branches {
        others = others.union(others_in_assigns(flags, branch.assigns.as_slice()));
    }
    others
}

// The variables that a machine gives another value than a number or one of these flags.
fn others_in(flags: VariableSet, m: &Machine) -> VariableSet {
    let mut others = VariableSet::empty();
    for state in 0..m.state_count() {
        others = others.union(others_in_branches(flags, m.branches(StateId(state))));
    }
    others
}

/// The flags of a machine: the local scalars all of whose assignments are numbers or other flags.
pub(crate) fn flags_in(m: &Machine) -> VariableSet {
    let mut flags = local_scalars(m);
    for _ in m.vars() {
        let fewer = flags.without(others_in(flags, m));
        if fewer.bits == flags.bits {
            return flags;
        }
        flags = fewer;
    }
    flags
}
