//! The rules that each state and each transition keep.

ghost use Rattle.std.specs.Prelude.{◌≡◌, ◌≤◌, ℕ, [], ◌∷◌, ◌++◌, length, false, not, ◌||◌, ◌==◌, map, IfOk};
ghost use Rattle.std.specs.List.{list_any};
ghost use Rattle.std.specs.Result.{OnOk};
ghost use Rattle.std.specs.Ordering.{nat_cmp};
ghost use Rattle.std.specs.BTreeSet.{contains};
ghost use Rattle.fs_model.specs.View.{named_expression, named_guard, named_assignment, source_transition_of, source_state_of};
ghost use Rattle.fs_rules.specs.declared.check.CheckRule.TheVariants.{AfterElse};
ghost use Rattle.fs_model.specs.Renamed.{expression_over, guard_over, assignment_over};
ghost use Rattle.fs_rules.specs.MachineOfParts.{place_or_end, names_of, transition_spelled};
ghost use Rattle.fs_model.specs.SoundMachines.{scalars_in, arrays_in, scalars_in_guard, arrays_in_guard, scalars_in_condition};
ghost use Rattle.fs_model.specs.SoundMachines.{arrays_in_condition, scalars_in_assignment, arrays_in_assignment};
ghost use Rattle.fs_model.specs.SoundMachines.{scalars_in_assignments};
ghost use Rattle.fs_model.specs.SoundMachines.{arrays_in_assignments, port_in, ports_in_assignments, emits_of, emit_count};
ghost use Rattle.fs_model.specs.SoundMachines.{input_at};
ghost use Rattle.fs_model.specs.SoundMachines.{changed_by, assigned_in, all_differ, occurs};
ghost use Rattle.fs_rules.specs.Rules.{at_lines, transition_faults, transitions_faults, after_else, state_faults};
ghost use Rattle.std.specs.List.{flat_map};
ghost use Rattle.fs_rules.specs.FirstFault.{earliest};
ghost use Rattle.fs_rules.specs.Places.{names_stated};
ghost use Rattle.fs_rules.specs.Uses.{uses_of, either_of};

use crate::check::CheckRule;
use crate::faults::Faults;
use crate::scope::Scope;
use fs_else_transitions::else_transitions::lacks_else;
use fs_model::limits::EMIT_LIMIT;
use fs_model::name::{Name, NoMemory};
use fs_model::parts::{Assign, Expr, Guard, RawLine, RawState};
use std::alloc::Global;
use std::collections::BTreeSet;

/// What is wrong with uses of variables.
#[derive(Clone, Copy)]
pub struct Uses {
    pub unknown: bool,
    pub wrong_sort: bool,
}

// What is wrong with either.
fn either(a: Uses, b: Uses) -> Uses
    ensures { result ≡ either_of a b }
{
    Uses {
        unknown: a.unknown || b.unknown,
        wrong_sort: a.wrong_sort || b.wrong_sort,
    }
}

impl Scope<'_> {
    // What is wrong with a use as a scalar.
    fn scalar_use(&self, name: &Name) -> Uses
        ensures { result ≡ uses_of self.now.vars.items (place_or_end (names_of self.now.vars.items) name.now ∷ []) [] [] }
    {
        match self.variable(name) {
            None => Uses {
                unknown: true,
                wrong_sort: false,
            },
            Some(var) => Uses {
                unknown: false,
                wrong_sort: !var.sort.is_scalar(),
            },
        }
    }

    // What is wrong with a use as an array.
    fn array_use(&self, name: &Name) -> Uses
        ensures { result ≡ uses_of self.now.vars.items [] (place_or_end (names_of self.now.vars.items) name.now ∷ []) [] }
    {
        match self.variable(name) {
            None => Uses {
                unknown: true,
                wrong_sort: false,
            },
            Some(var) => Uses {
                unknown: false,
                wrong_sort: !var.sort.is_array(),
            },
        }
    }

    // What is wrong with a use as a port.
    fn port_use(&self, name: &Name) -> Uses
        ensures { result ≡ uses_of self.now.vars.items [] [] (place_or_end (names_of self.now.vars.items) name.now ∷ []) }
    {
        match self.variable(name) {
            None => Uses {
                unknown: true,
                wrong_sort: false,
            },
            Some(var) => Uses {
                unknown: false,
                wrong_sort: !var.sort.is_port(),
            },
        }
    }

    // What is wrong with the uses of an expression.
    #[tactic(auto, using(crate::proofs::Uses::either_expressions))]
    fn expr_uses(&self, expr: &Expr<Name>) -> Uses
        ensures { let t = expression_over (place_or_end (names_of self.now.vars.items)) (named_expression expr.now) in
            result ≡ uses_of self.now.vars.items (scalars_in t) (arrays_in t) [] }
    {
        match expr {
            Expr::Num(_) => Uses {
                unknown: false,
                wrong_sort: false,
            },
            Expr::Var(name) => self.scalar_use(name),
            Expr::Read(name, index) => either(self.array_use(name), self.expr_uses(index)),
            Expr::Add(a, b)
            | Expr::Sub(a, b)
            | Expr::Mul(a, b)
            | Expr::Div(a, b)
            | Expr::Rem(a, b) => either(self.expr_uses(a), self.expr_uses(b)),
            Expr::Neg(a) => self.expr_uses(a),
        }
    }

    // What is wrong with the uses of a guard.
    #[tactic(auto, using(crate::proofs::Uses::either_expressions))]
    fn guard_uses(&self, guard: &Guard) -> Uses
        ensures { let g = guard_over (place_or_end (names_of self.now.vars.items)) (named_guard guard.now) in
            result ≡ uses_of self.now.vars.items (scalars_in_guard g) (arrays_in_guard g) [] }
    {
        match guard {
            Guard::Lit(lit) => either(self.expr_uses(&lit.left), self.expr_uses(&lit.right)),
            Guard::Not(a) => self.guard_uses(a),
            Guard::And(a, b) | Guard::Or(a, b) => either(self.guard_uses(a), self.guard_uses(b)),
        }
    }

    // What is wrong with the uses of an assignment.
    fn assign_uses(&self, assign: &Assign<Name>) -> Uses
        ensures { let a = assignment_over (place_or_end (names_of self.now.vars.items)) (named_assignment assign.now) in
            result ≡ uses_of self.now.vars.items (scalars_in_assignment a) (arrays_in_assignment a) (port_in a) }
    {
        match assign {
            Assign::Set(name, value) => either(self.scalar_use(name), self.expr_uses(value)),
            Assign::Put(name, index, value) => {
                let expressions = either(self.expr_uses(index), self.expr_uses(value));
                either(self.array_use(name), expressions)
            }
            Assign::Emit(name, value) => either(self.port_use(name), self.expr_uses(value)),
        }
    }

    // What is wrong with the uses of assignments.
    fn assigns_uses(&self, assigns: &[Assign<Name>]) -> Uses
        ensures { let l = map (assignment_over (place_or_end (names_of self.now.vars.items)))
            (map named_assignment assigns.now) in
            result ≡ uses_of self.now.vars.items (scalars_in_assignments l) (arrays_in_assignments l) (ports_in_assignments l) }
    {
        let mut uses = Uses {
            unknown: false,
            wrong_sort: false,
        };
        for assign in assigns {
            uses = either(uses, self.assign_uses(assign));
        }
        uses
    }

    // What is wrong with the uses of a transition.
    fn transition_uses(&self, line: &RawLine) -> Uses
        ensures { let vs = self.now.vars.items in
            let l = transition_spelled (names_of vs) (names_stated self.now.states.now) (source_transition_of line.now) in
            result ≡ uses_of vs (scalars_in_condition l.guard ++ scalars_in_assignments l.assignments)
            (arrays_in_condition l.guard ++ arrays_in_assignments l.assignments) (ports_in_assignments l.assignments) }
    {
        let assigns = self.assigns_uses(&line.assigns);
        match &line.guard {
            None => assigns,
            Some(guard) => either(self.guard_uses(guard), assigns),
        }
    }
}

impl Scope<'_> {
    // Whether an assignment changes an input.
    fn changes_input(&self, assign: &Assign<Name>) -> bool
        ensures { let a = assignment_over (place_or_end (names_of self.now.vars.items)) (named_assignment assign.now) in
            result ≡ input_at self.now.vars.items (changed_by a) }
    {
        let (Assign::Set(name, _) | Assign::Put(name, _, _) | Assign::Emit(name, _)) = assign;
        match self.variable(name) {
            None => false,
            Some(var) => var.role.is_input(),
        }
    }

    // Whether one of some assignments changes an input.
    fn some_changes_input(&self, assigns: &[Assign<Name>]) -> bool
        ensures { result ≡ list_any (λ a. input_at self.now.vars.items (changed_by a))
            (map (assignment_over (place_or_end (names_of self.now.vars.items))) (map named_assignment assigns.now)) }
    {
        assigns.iter().any(|assign| self.changes_input(assign))
    }

    // Whether a scalar is assigned twice.
    fn assigns_twice(&self, alloc: Global, assigns: &[Assign<Name>]) -> Result<bool, NoMemory>
        ensures { IfOk result
            (λ twice. twice
            ≡ not
            (all_differ
            (assigned_in
            (map (assignment_over (place_or_end (names_of self.now.vars.items))) (map named_assignment assigns.now))))) }
    {
        let mut seen = BTreeSet::new(alloc);
        for assign in assigns {
            if self.assigns_again(assign, &mut seen)? {
                return Ok(true);
            }
        }
        Ok(false)
    }

    // Whether a scalar is assigned that was seen before. Then it is seen.
    fn assigns_again(
        &self,
        assign: &Assign<Name>,
        seen: &mut BTreeSet<usize>,
    ) -> Result<bool, NoMemory>
        ensures again { IfOk result
            (λ again. again ≡ list_any (contains nat_cmp seen.old)
            (assigned_in (assignment_over (place_or_end (names_of self.now.vars.items)) (named_assignment assign.now) ∷ []))) }
        ensures seen { OnOk result
            ((q : ℕ) → contains nat_cmp seen.new q
            ≡ (contains nat_cmp seen.old q
            || occurs q
            (assigned_in (assignment_over (place_or_end (names_of self.now.vars.items)) (named_assignment assign.now) ∷ [])))) }
    {
        match assign {
            Assign::Set(name, _) => add(seen, self.variable_place(name)),
            Assign::Put(..) | Assign::Emit(..) => Ok(false),
        }
    }

    // Notes each rule that a transition breaks.
    fn check_transition(
        &self,
        alloc: Global,
        line: &RawLine,
        faults: &mut Faults,
    ) -> Result<(), NoMemory>
        ensures { OnOk result (faults.new.first ≡ earliest faults.old.first
            (transition_faults self.now.vars.items (length (names_stated self.now.states.now)) line.now.line
            (transition_spelled (names_of self.now.vars.items) (names_stated self.now.states.now)
            (source_transition_of line.now)))) }
    {
        let uses = self.transition_uses(line);
        let assigns = line.assigns.as_slice();
        let changes_input = self.some_changes_input(assigns);
        let twice = self.assigns_twice(alloc, assigns)?;
        let no_target = !self.knows_state(&line.target);
        let emits = emit_count(assigns);
        faults.note_where(uses.unknown, CheckRule::UnknownName, line.line);
        faults.note_where(uses.wrong_sort, CheckRule::WrongSort, line.line);
        faults.note_where(changes_input, CheckRule::AssignInput, line.line);
        faults.note_where(twice, CheckRule::AssignedTwice, line.line);
        faults.note_where(no_target, CheckRule::UnknownState, line.line);
        faults.note_where(emits > EMIT_LIMIT, CheckRule::TooManyEmits, line.line);
        Ok(())
    }

    // Notes each rule that transitions break, each on its own.
    fn check_transitions(
        &self,
        alloc: Global,
        lines: &[RawLine],
        faults: &mut Faults,
    ) -> Result<(), NoMemory>
        ensures { OnOk result
            (faults.new.first ≡ earliest faults.old.first
            (transitions_faults self.now.vars.items (names_stated self.now.states.now) (map source_transition_of lines.now))) }
    {
        for line in lines {
            self.check_transition(alloc, line, faults)?;
        }
        Ok(())
    }

    // Notes each rule that a state breaks.
    fn check_state(
        &self,
        alloc: Global,
        state: &RawState,
        faults: &mut Faults,
    ) -> Result<(), NoMemory>
        ensures { OnOk result
            (faults.new.first ≡ earliest faults.old.first
            (state_faults self.now.vars.items (names_stated self.now.states.now) (source_state_of state.now))) }
    {
        let lines = state.lines.as_slice();
        faults.note_where(lacks_else(lines), CheckRule::NoElse, state.line);
        note_after_else(lines, faults);
        self.check_transitions(alloc, lines, faults)
    }

    /// Notes each rule that states break. The one refusal is out of memory.
    pub fn check_states(
        &self,
        alloc: Global,
        states: &[RawState],
        faults: &mut Faults,
    ) -> Result<(), NoMemory>
        ensures { OnOk result
            (faults.new.first ≡ earliest faults.old.first
            (flat_map (state_faults self.now.vars.items (names_stated self.now.states.now)) (map source_state_of states.now))) }
    {
        for state in states {
            self.check_state(alloc, state, faults)?;
        }
        Ok(())
    }
}

// Adds a number to a set, and tells whether it was there.
fn add(seen: &mut BTreeSet<usize>, place: usize) -> Result<bool, NoMemory>
    ensures was { IfOk result (λ was. was ≡ contains nat_cmp seen.old place) }
    ensures added { OnOk result ((q : ℕ) → contains nat_cmp seen.new q ≡ (contains nat_cmp seen.old q || place == q)) }
{
    let is_new = seen.insert(place)?;
    Ok(!is_new)
}

// How many assignments are emits.
fn emit_count(assigns: &[Assign<Name>]) -> usize
    ensures { result ≡ emit_count (map named_assignment assigns.now) }
{
    let mut count = 0;
    for assign in assigns {
        count += emits_of(assign);
    }
    count
}

// 1 of an emit, and 0 of another assignment.
fn emits_of(assign: &Assign<Name>) -> usize
    ensures emits { result ≡ emits_of (named_assignment assign.now) }
    ensures one { result ≤ 1 }
{
    match assign {
        Assign::Set(..) | Assign::Put(..) => 0,
        Assign::Emit(..) => 1,
    }
}

// Notes each transition after one without guard.
fn note_after_else(lines: &[RawLine], faults: &mut Faults)
    ensures { faults.new.first ≡ earliest faults.old.first
        (at_lines AfterElse (after_else false (map source_transition_of lines.now))) }
{
    let mut seen = false;
    for line in lines {
        faults.note_where(seen, CheckRule::AfterElse, line.line);
        seen = seen || line.guard.is_none();
    }
}
