//! What parts declare, and the first of the broken rules that are looked at first.

ghost use Rattle.std.specs.Prelude.{◌≡◌, None, IfOk, map};
ghost use Rattle.std.specs.Result.{OnOk};
ghost use Rattle.fs_model.specs.Limits.{most_variables, most_states};
ghost use Rattle.fs_model.specs.View.{declaration_of, source_of, source_state_of};
ghost use Rattle.fs_rules.specs.MachineOfParts.{names_of, variables_of};
ghost use Rattle.fs_rules.specs.Rules.{declared_names, declared_states, plain_faults};
ghost use Rattle.fs_rules.specs.FirstFault.{earliest};
ghost use Rattle.fs_rules.specs.Places.{declared_of, declared_name_list, names_stated, IsTableOf};
ghost use Rattle.fs_rules.specs.Scopes.{IsScopeOf, name_faults, table_faults};

use crate::check::{CheckFault, CheckRule};
use crate::faults::Faults;
use crate::names::{Declared, NameTable, note_past};
use crate::scope::{Scope, declare_states, declare_variables};
use fs_model::limits::{STATE_LIMIT, VARIABLE_LIMIT};
use fs_model::name::NoMemory;
use fs_model::parts::{Decl, Parts, RawState, VarInfo};
use std::alloc::Global;

/// What parts declare, and the first of the broken rules that are looked at first.
#[derive(Drop)]
pub struct Checked<'p> {
    pub scope: Scope<'p>,
    pub first: Option<CheckFault>,
}

// Variables, and the first places of their names.
#[derive(Drop)]
struct NamedVariables {
    vars: Vec<VarInfo>,
    places: NameTable,
}

/// What parts declare, and the first broken rule but for those on branches and on endless lines. The one refusal is out of
/// memory.
pub fn check_parts(alloc: Global, parts: &Parts) -> Result<Checked<'_>, NoMemory>
    ensures scope { IfOk result
        (λ c. IsScopeOf (source_of parts.now) c.scope.vars.items (map source_state_of c.scope.states.now)) }
    ensures first { IfOk result (λ c. c.first ≡ earliest None (plain_faults (source_of parts.now))) }
{
    let mut faults = Faults::new();
    let scope = declare(alloc, parts, &mut faults)?;
    let no_reset = !scope.knows_state(&parts.reset);
    faults.note_where(no_reset, CheckRule::UnknownState, parts.reset_line);
    scope.check_states(alloc, parts.states.as_slice(), &mut faults)?;
    Ok(Checked {
        scope,
        first: faults.first,
    })
}

// What parts declare. Names that are declared again or past a limit are noted.
fn declare<'p>(alloc: Global, parts: &'p Parts, faults: &mut Faults) -> Result<Scope<'p>, NoMemory>
    ensures scope { IfOk result (λ s. IsScopeOf (source_of parts.now) s.vars.items (map source_state_of s.states.now)) }
    ensures noted { OnOk result (faults.new.first ≡ earliest faults.old.first (name_faults (source_of parts.now))) }
{
    let variables = name_variables(alloc, parts.decls.as_slice(), faults)?;
    let states = parts.states.as_slice();
    let state_places = name_states(alloc, states, faults)?;
    Ok(Scope {
        vars: variables.vars,
        variable_places: variables.places,
        states,
        state_places,
    })
}

// The variables of declarations. Names that are declared again or past the limit are noted.
fn name_variables(
    alloc: Global,
    decls: &[Decl],
    faults: &mut Faults,
) -> Result<NamedVariables, NoMemory>
    ensures vars { IfOk result (λ v. v.vars.items ≡ variables_of (map declaration_of decls.now)) }
    ensures table { IfOk result (λ v. IsTableOf v.places (names_of v.vars.items)) }
    ensures noted { OnOk result
        (faults.new.first ≡ earliest faults.old.first
        (table_faults most_variables (declared_names (map declaration_of decls.now)))) }
{
    let variables = declare_variables(alloc, decls)?;
    let places = noted_table(alloc, &variables.declared, VARIABLE_LIMIT, faults)?;
    Ok(NamedVariables {
        vars: variables.vars,
        places,
    })
}

// The first places of the names of states. Names that are declared again or past the limit are noted.
fn name_states(
    alloc: Global,
    states: &[RawState],
    faults: &mut Faults,
) -> Result<NameTable, NoMemory>
    ensures table { IfOk result (λ t. IsTableOf t (names_stated states.now)) }
    ensures noted { OnOk result
        (faults.new.first ≡ earliest faults.old.first
        (table_faults most_states (declared_states (map source_state_of states.now)))) }
{
    let declared = declare_states(alloc, states)?;
    noted_table(alloc, &declared, STATE_LIMIT, faults)
}

// The first places of declared names. Names that are declared again or past a limit are noted.
fn noted_table(
    alloc: Global,
    declared: &[Declared],
    most: usize,
    faults: &mut Faults,
) -> Result<NameTable, NoMemory>
    ensures table { IfOk result (λ t. IsTableOf t (declared_name_list (map declared_of declared.now))) }
    ensures noted { OnOk result
        (faults.new.first ≡ earliest faults.old.first (table_faults most (map declared_of declared.now))) }
{
    let table = NameTable::of(alloc, declared, faults)?;
    note_past(declared, most, faults);
    Ok(table)
}
