//! Two machines of a size.

ghost use Rattle.std.specs.Prelude.{◌≡◌, ◌≤◌, ◌∷◌, [], map, IfOk, IsTrue, codes};
ghost use Rattle.fs_model.specs.View.{declaration_of, source_state_of, source_of};
ghost use Rattle.fs_model.specs.WellFormed.{is_well_formed};
ghost use Rattle.fs_rules.specs.MachineOfParts.{machine_of};
ghost use Rattle.fs_rules.specs.Rules.{BreaksNoRule};
ghost use Rattle.fs_generated.specs.Generated.{declaration, declarations, entry_name, source, left_source, right_source};
ghost use Rattle.fs_generated.specs.Sides.{round_of};

use crate::names::{entry_name, short_name};
use crate::parts::{one, two, with_last};
use crate::states::{Side, states};
use fs_ast::build::BuildError;
use fs_ast::machine::Machine;
use fs_model::name::{Name, NoMemory};
use fs_model::parts::{Decl, Parts, RawState, Role, Sort};
use std::alloc::Global;

/// Two machines of the same behaviour, of a size from 1 to 300: the inputs are `a` and `b`, the output is `y`. In each
/// round a loop runs `a` times and adds `b` and the round's number to a sum, which the left machine does in
/// two steps and the right one in one. The only refusal is out of memory.
pub fn generate(alloc: Global, n: u32) -> Result<(Machine, Machine), NoMemory>
    requires some { 1 ≤ n }
    requires few { n ≤ 300 }
    ensures left { IfOk result (λ p. p.0 ≡ machine_of (left_source n)) }
    ensures right { IfOk result (λ p. p.1 ≡ machine_of (right_source n)) }
{
    let left = machine(alloc, Side::Left, n)?;
    Ok((left, machine(alloc, Side::Right, n)?))
}

fn machine(alloc: Global, side: Side, n: u32) -> Result<Machine, NoMemory>
    requires { n ≤ 300 }
    ensures { IfOk result (λ m. m ≡ machine_of (source (round_of side) n)) }
{
    let parts = parts(alloc, states(alloc, side, n)?)?;
    build_machine(alloc, &parts)
}

// The machine of parts that break no rule.
fn build_machine(alloc: Global, parts: &Parts) -> Result<Machine, NoMemory>
    requires formed { IsTrue (is_well_formed (source_of parts.now)) }
    requires lawful { BreaksNoRule (source_of parts.now) }
    ensures { IfOk result (λ m. m ≡ machine_of (source_of parts.now)) }
{
    match Machine::build(alloc, parts) {
        Ok(machine) => Ok(machine),
        Err(BuildError::NoMemory) => Err(NoMemory),
        Err(BuildError::Check(_)) => unreachable!(),
    }
}

// The parts with these states.
fn parts(alloc: Global, states: Vec<RawState>) -> Result<Parts, NoMemory>
    ensures { IfOk result
        (λ p. source_of p ≡ record {
          declarations = declarations;
          reset_line = 1;
          reset = entry_name 0;
          states = map source_state_of states.items;
        }) }
{
    let reset = entry_name(alloc, 0)?;
    Ok(Parts {
        decls: declarations(alloc)?,
        reset_line: 1,
        reset,
        states,
    })
}

fn declarations(alloc: Global) -> Result<Vec<Decl>, NoMemory>
    ensures { IfOk result (λ out. map declaration_of out.items ≡ declarations) }
{
    let inputs = declaration(Role::Input, inputs(alloc)?);
    let ports = two(alloc, inputs, declaration(Role::Output, outputs(alloc)?))?;
    with_last(ports, declaration(Role::Local, locals(alloc)?))
}

// The declaration of scalars.
fn declaration(role: Role, names: Vec<Name>) -> Decl
    ensures { declaration_of result ≡ declaration role names.items }
{
    Decl {
        line: 1,
        role,
        sort: Sort::Scalar,
        names,
    }
}

fn inputs(alloc: Global) -> Result<Vec<Name>, NoMemory>
    ensures { IfOk result (λ out. out.items ≡ codes "a" ∷ codes "b" ∷ []) }
{
    let first = short_name(alloc, b'a')?;
    two(alloc, first, short_name(alloc, b'b')?)
}

fn outputs(alloc: Global) -> Result<Vec<Name>, NoMemory>
    ensures { IfOk result (λ out. out.items ≡ codes "y" ∷ []) }
{
    one(alloc, short_name(alloc, b'y')?)
}

fn locals(alloc: Global) -> Result<Vec<Name>, NoMemory>
    ensures { IfOk result (λ out. out.items ≡ codes "i" ∷ codes "s" ∷ codes "t" ∷ []) }
{
    let first = short_name(alloc, b'i')?;
    let both = two(alloc, first, short_name(alloc, b's')?)?;
    with_last(both, short_name(alloc, b't')?)
}
