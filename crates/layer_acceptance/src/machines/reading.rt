//! The parts and the machine of a text.

ghost use Rattle.std.specs.Prelude.{◌≡◌, IsTrue, IfOk};
ghost use Rattle.fs_model.specs.View.{source_of};
ghost use Rattle.fs_model.specs.WellFormed.{is_well_formed};
ghost use Rattle.fs_ast.specs.MachineOfParts.{machine_of};
ghost use Rattle.fs_ast.specs.Rules.{BreaksNoRule};

use fs_ast::machine::Machine;
use fs_model::limits::TEXT_LIMIT;
use fs_model::parts::Parts;
use fs_text::read_parts;
use std::alloc::Global;

/// The parts that a text spells, and the machine that is built of them; else in two or three words why there is none, as a
/// test tells it.
pub fn parts_and_machine(alloc: Global, text: &str) -> Result<(Parts, Machine), &'static str>
    ensures formed { IfOk result (λ x. IsTrue (is_well_formed (source_of x.0))) }
    ensures lawful { IfOk result (λ x. BreaksNoRule (source_of x.0)) }
    ensures spelled { IfOk result (λ x. x.1 ≡ machine_of (source_of x.0)) }
{
    if text.len() > TEXT_LIMIT {
        return Err("too long");
    }
    let Ok(parts) = read_parts(alloc, text.as_bytes()) else {
        return Err("no parts");
    };
    match Machine::build(alloc, &parts) {
        Ok(machine) => Ok((parts, machine)),
        Err(_) => Err("no machine"),
    }
}

/// The machine of a text; else why there is none, as of `parts_and_machine`.
pub fn machine(alloc: Global, text: &str) -> Result<Machine, &'static str> {
    let (_parts, machine) = parts_and_machine(alloc, text)?;
    Ok(machine)
}
