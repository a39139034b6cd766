//! The variables and states that parts declare, by name and by place.

ghost use Rattle.std.specs.Prelude.{◌≡◌, ◌≤◌, ◌++◌, [], ◌∷◌, length, map, nat_lt, slice_get, IfOk};
ghost use Rattle.std.specs.Option.{option_copied};
ghost use Rattle.std.specs.Result.{OnOk};
ghost use Rattle.fs_model.specs.Limits.{most_variables, most_states};
ghost use Rattle.fs_model.specs.View.{declaration_of, source_state_of};
ghost use Rattle.fs_rules.specs.MachineOfParts.{place_or_end, declared_by, variables_of, names_of};
ghost use Rattle.fs_rules.specs.Rules.{declared_names, declared_states};
ghost use Rattle.fs_rules.specs.Places.{declared_of, names_stated, IsTableOf};

use crate::names::{Declared, NameTable};
use fs_model::copies::Rename;
use fs_model::name::{Name, NoMemory};
use fs_model::parts::{Decl, RawState, StateId, VarId, VarInfo};
use std::alloc::Global;

/// The variables and the states that parts declare, and the first places of their names.
#[derive(Drop)]
pub struct Scope<'p> {
    pub vars: Vec<VarInfo>,
    pub variable_places: NameTable,
    pub states: &'p [RawState],
    pub state_places: NameTable,
    ghost named: { IsTableOf variable_places (names_of vars.items) },
    ghost stated: { IsTableOf state_places (names_stated states.now) },
}

impl Scope<'_> {
    /// The place of a variable, and the number of variables where there is none of the name.
    pub fn variable_place(&self, name: &Name) -> usize
        ensures place { result ≡ place_or_end (names_of self.now.vars.items) name.now }
        ensures within { result ≤ length self.now.vars.items }
    {
        self.variable_places.place(name)
    }

    /// The variable of a name.
    pub fn variable(&self, name: &Name) -> Option<&VarInfo>
        ensures { option_copied result ≡ slice_get self.now.vars.items (place_or_end (names_of self.now.vars.items) name.now) }
    {
        self.vars.get(self.variable_place(name))
    }

    /// The place of a state, and the number of states where there is none of the name.
    pub fn state_place(&self, name: &Name) -> usize
        ensures place { result ≡ place_or_end (names_stated self.now.states.now) name.now }
        ensures within { result ≤ length self.now.states.now }
    {
        self.state_places.place(name)
    }

    /// Whether a state has the name.
    pub fn knows_state(&self, name: &Name) -> bool
        ensures { result ≡ nat_lt (place_or_end (names_stated self.now.states.now) name.now)
            (length (names_stated self.now.states.now)) }
    {
        self.state_place(name) < self.states.len()
    }

    /// The number of a variable.
    pub fn variable_id(&self, name: &Name) -> VarId
        requires { length self.now.vars.items ≤ most_variables }
        ensures { result.0 ≡ place_or_end (names_of self.now.vars.items) name.now }
    {
        VarId(self.variable_place(name) as u32)
    }

    /// The number of a state.
    pub fn state_id(&self, name: &Name) -> StateId
        requires { length self.now.states.now ≤ most_states }
        ensures { result.0 ≡ place_or_end (names_stated self.now.states.now) name.now }
    {
        StateId(self.state_place(name) as u32)
    }
}

impl Rename<Name> for Scope<'_> {
    type To = VarId;

    ghost can_rename = { λ s. length s.vars.items ≤ most_variables };

    ghost renamed = { λ s name. record { 0 = place_or_end (names_of s.vars.items) name } };

    fn rename(&self, _alloc: Global, variable: &Name) -> Result<VarId, NoMemory> {
        Ok(self.variable_id(variable))
    }
}

/// The variables that declarations make, and their names with the lines of their declarations.
#[derive(Drop)]
pub struct Variables {
    pub vars: Vec<VarInfo>,
    pub declared: Vec<Declared>,
}

/// The variables of declarations. The one refusal is out of memory.
pub fn declare_variables(alloc: Global, decls: &[Decl]) -> Result<Variables, NoMemory>
    ensures vars { IfOk result (λ v. v.vars.items ≡ variables_of (map declaration_of decls.now)) }
    ensures declared { IfOk result (λ v. map declared_of v.declared.items ≡ declared_names (map declaration_of decls.now)) }
{
    let mut out = Variables {
        vars: Vec::new(alloc),
        declared: Vec::new(alloc),
    };
    for decl in decls {
        declare(alloc, decl, &mut out)?;
    }
    Ok(out)
}

// Adds the variables of one declaration.
fn declare(alloc: Global, decl: &Decl, out: &mut Variables) -> Result<(), NoMemory>
    ensures vars { OnOk result (out.new.vars.items ≡ out.old.vars.items ++ declared_by (declaration_of decl.now)) }
    ensures declared { OnOk result
        (map declared_of out.new.declared.items ≡ map declared_of out.old.declared.items
        ++ map (λ n. (decl.now.line, n)) decl.now.names.items) }
{
    for name in &decl.names {
        add_variable(alloc, decl, name, &mut out.vars)?;
        add_name(alloc, decl.line, name, &mut out.declared)?;
    }
    Ok(())
}

// Adds the variable of a name.
fn add_variable(
    alloc: Global,
    decl: &Decl,
    name: &Name,
    vars: &mut Vec<VarInfo>,
) -> Result<(), NoMemory>
    ensures { OnOk result
        (vars.new.items ≡ vars.old.items ++ record { name = name.now; role = decl.now.role; sort = decl.now.sort } ∷ []) }
{
    let name = name.try_clone(alloc)?;
    vars.push(VarInfo {
        name,
        role: decl.role,
        sort: decl.sort,
    })?;
    Ok(())
}

// Adds a name with the line of its declaration.
fn add_name(
    alloc: Global,
    line: u32,
    name: &Name,
    declared: &mut Vec<Declared>,
) -> Result<(), NoMemory>
    ensures { OnOk result
        (map declared_of declared.new.items ≡ map declared_of declared.old.items ++ (line, name.now) ∷ []) }
{
    let name = name.try_clone(alloc)?;
    declared.push(Declared { line, name })?;
    Ok(())
}

/// The names of states, with their lines. The one refusal is out of memory.
pub fn declare_states(alloc: Global, states: &[RawState]) -> Result<Vec<Declared>, NoMemory>
    ensures { IfOk result (λ d. map declared_of d.items ≡ declared_states (map source_state_of states.now)) }
{
    let mut out = Vec::new(alloc);
    for state in states {
        add_name(alloc, state.line, &state.name, &mut out)?;
    }
    Ok(out)
}
