//! Parts that a text can spell: no number is negative, each declaration has a name, each port is an output, and each guard and
//! each assignment has at most 128 operators and needed brackets.

ghost use Rattle.std.specs.Prelude.{◌≡◌, ◌+◌, min, map, option_map};
ghost use Rattle.std.specs.List.{list_all};
ghost use Rattle.fs_model.specs.View.{named_expression, named_guard, named_assignment, declaration_of, source_transition_of};
ghost use Rattle.fs_model.specs.View.{source_state_of, source_of};
ghost use Rattle.fs_model.specs.WellFormed.{is_sum, is_product, is_and, is_or, bracket, operators_of_expression};
ghost use Rattle.fs_model.specs.WellFormed.{operators_of_guard};
ghost use Rattle.fs_model.specs.WellFormed.{operators_of_assignment, is_natural_expression, is_natural_guard};
ghost use Rattle.fs_model.specs.WellFormed.{is_natural_assignment};
ghost use Rattle.fs_model.specs.WellFormed.{is_well_formed_condition, is_well_formed_assignment, is_well_formed_transition};
ghost use Rattle.fs_model.specs.WellFormed.{is_well_formed_state, is_well_formed_declaration, is_well_formed};

use crate::limits::OPERATOR_LIMIT;
use crate::name::Name;
use crate::parts::{Assign, Decl, Expr, Guard, Parts, RawLine, RawState};

impl Parts {
    /// Whether a text can spell these parts: no number is negative, each declaration has a name, and each
    /// guard and each assignment has at most 128 operators and opening brackets in its shortest text.
    /// Takes no memory.
    pub fn is_well_formed(&self) -> bool
        ensures { result ≡ is_well_formed (source_of self.now) }
    {
        are_well_formed_declarations(&self.decls) && are_well_formed_states(&self.states)
    }
}

fn are_well_formed_declarations(decls: &[Decl]) -> bool
    ensures { result ≡ list_all is_well_formed_declaration (map declaration_of decls.now) }
{
    decls.iter().all(|decl| is_well_formed_declaration(decl))
}

fn is_well_formed_declaration(decl: &Decl) -> bool
    ensures { result ≡ is_well_formed_declaration (declaration_of decl.now) }
{
    !decl.names.is_empty() && (!decl.sort.is_port() || decl.role.is_output())
}

fn are_well_formed_states(states: &[RawState]) -> bool
    ensures { result ≡ list_all is_well_formed_state (map source_state_of states.now) }
{
    states
        .iter()
        .all(|state| are_well_formed_transitions(&state.lines))
}

fn are_well_formed_transitions(lines: &[RawLine]) -> bool
    ensures { result ≡ list_all is_well_formed_transition (map source_transition_of lines.now) }
{
    lines.iter().all(|line| is_well_formed_condition(&line.guard)
        && are_well_formed_assignments(&line.assigns))
}

fn is_well_formed_condition(guard: &Option<Guard>) -> bool
    ensures { result ≡ is_well_formed_condition (option_map named_guard guard.now) }
{
    match guard {
        None => true,
        Some(guard) => is_natural_guard(guard) && operators_of_guard(guard) <= OPERATOR_LIMIT,
    }
}

fn are_well_formed_assignments(assigns: &[Assign<Name>]) -> bool
    ensures { result ≡ list_all is_well_formed_assignment (map named_assignment assigns.now) }
{
    assigns.iter().all(|assign| is_natural_assign(assign)
        && operators_of_assign(assign) <= OPERATOR_LIMIT)
}

fn is_natural(expr: &Expr<Name>) -> bool
    ensures { result ≡ is_natural_expression (named_expression expr.now) }
{
    match expr {
        Expr::Num(n) => *n >= 0,
        Expr::Var(_) => true,
        Expr::Read(_, index) => is_natural(index),
        Expr::Add(a, b) | Expr::Sub(a, b) | Expr::Mul(a, b) | Expr::Div(a, b) | Expr::Rem(a, b) =>
            is_natural(a) && is_natural(b),
        Expr::Neg(a) => is_natural(a),
    }
}

fn is_natural_guard(guard: &Guard) -> bool
    ensures { result ≡ is_natural_guard (named_guard guard.now) }
{
    match guard {
        Guard::Lit(lit) => is_natural(&lit.left) && is_natural(&lit.right),
        Guard::Not(a) => is_natural_guard(a),
        Guard::And(a, b) | Guard::Or(a, b) => is_natural_guard(a) && is_natural_guard(b),
    }
}

fn is_natural_assign(assign: &Assign<Name>) -> bool
    ensures { result ≡ is_natural_assignment (named_assignment assign.now) }
{
    match assign {
        Assign::Set(_, value) => is_natural(value),
        Assign::Put(_, index, value) => is_natural(index) && is_natural(value),
        Assign::Emit(_, value) => is_natural(value),
    }
}

/// Whether an expression is a sum or a difference.
pub fn is_sum(expr: &Expr<Name>) -> bool
    ensures { result ≡ is_sum (named_expression expr.now) }
{
    matches!(expr, Expr::Add(..) | Expr::Sub(..))
}

/// Whether an expression is a product, a quotient or a remainder.
pub fn is_product(expr: &Expr<Name>) -> bool
    ensures { result ≡ is_product (named_expression expr.now) }
{
    matches!(expr, Expr::Mul(..) | Expr::Div(..) | Expr::Rem(..))
}

/// Whether a guard is a conjunction.
pub fn is_and(guard: &Guard) -> bool
    ensures { result ≡ is_and (named_guard guard.now) }
{
    matches!(guard, Guard::And(..))
}

/// Whether a guard is a disjunction.
pub fn is_or(guard: &Guard) -> bool
    ensures { result ≡ is_or (named_guard guard.now) }
{
    matches!(guard, Guard::Or(..))
}

// One opening bracket where it is needed.
fn bracket(needed: bool) -> u32
    ensures { result ≡ bracket needed }
{
    if needed { 1 } else { 0 }
}

// One more than the sum, as far as 32 bits go.
fn one_more(a: u32, b: u32) -> u32
    ensures { result ≡ min (1 + (a + b)) 4294967295 }
{
    a.saturating_add(b).saturating_add(1)
}

// The operators and opening brackets of an expression's shortest text, as far as 32 bits go.
fn operator_count(expr: &Expr<Name>) -> u32
    ensures { result ≡ min (operators_of_expression (named_expression expr.now)) 4294967295 }
{
    match expr {
        Expr::Num(_) | Expr::Var(_) => 0,
        Expr::Read(_, index) => one_more(0, operator_count(index)),
        Expr::Add(a, b) | Expr::Sub(a, b) => {
            one_more(
                operator_count(a),
                bracket(is_sum(b)).saturating_add(operator_count(b)),
            )
        }
        Expr::Mul(a, b) | Expr::Div(a, b) | Expr::Rem(a, b) => one_more(
            bracket(is_sum(a)).saturating_add(operator_count(a)),
            bracket(is_sum(b) || is_product(b)).saturating_add(operator_count(b)),
        ),
        Expr::Neg(a) => one_more(bracket(is_sum(a) || is_product(a)), operator_count(a)),
    }
}

/// The operators and opening braces and brackets of a guard's shortest text, as far as 32 bits go. Takes no memory.
pub fn operators_of_guard(guard: &Guard) -> u32
    ensures { result ≡ min (operators_of_guard (named_guard guard.now)) 4294967295 }
{
    match guard {
        Guard::Lit(lit) => one_more(operator_count(&lit.left), operator_count(&lit.right)),
        Guard::Not(a) => one_more(bracket(is_and(a) || is_or(a)), operators_of_guard(a)),
        Guard::And(a, b) => one_more(
            bracket(is_or(a)).saturating_add(operators_of_guard(a)),
            bracket(is_and(b) || is_or(b)).saturating_add(operators_of_guard(b)),
        ),
        Guard::Or(a, b) => one_more(
            operators_of_guard(a),
            bracket(is_or(b)).saturating_add(operators_of_guard(b)),
        ),
    }
}

/// The operators and opening brackets of an assignment's shortest text, as far as 32 bits go. Takes no memory.
pub fn operators_of_assign(assign: &Assign<Name>) -> u32
    ensures { result ≡ min (operators_of_assignment (named_assignment assign.now)) 4294967295 }
{
    match assign {
        Assign::Set(_, value) => operator_count(value),
        Assign::Put(_, index, value) => one_more(operator_count(index), operator_count(value)),
        Assign::Emit(_, value) => operator_count(value),
    }
}
