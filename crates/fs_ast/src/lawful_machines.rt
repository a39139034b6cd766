//! The machines of parts that break no rule.

ghost use Rattle.std.specs.Prelude.{◌≡◌, IsTrue, IfOk};
ghost use Rattle.fs_model.specs.View.{source_of};
ghost use Rattle.fs_model.specs.WellFormed.{is_well_formed};
ghost use Rattle.fs_rules.specs.MachineOfParts.{machine_of};
ghost use Rattle.fs_rules.specs.Rules.{BreaksNoRule};
ghost use Rattle.fs_model.specs.SoundMachines.{IsSound};

use crate::build::BuildError;
use crate::machine::Machine;
use fs_model::name::NoMemory;
use fs_model::parts::Parts;
use std::alloc::Global;

/// The machine of well-formed parts that break no rule. The one refusal is out of memory.
pub fn build_lawful(alloc: Global, parts: &Parts) -> Result<Machine, NoMemory>
    requires formed { IsTrue (is_well_formed (source_of parts.now)) }
    requires lawful { BreaksNoRule (source_of parts.now) }
    ensures spelled { IfOk result (λ m. m ≡ machine_of (source_of parts.now)) }
    ensures sound { IfOk result (λ m. IsSound m) }
{
    match Machine::build(alloc, parts) {
        Ok(machine) => {
            let _vars = machine.vars(); // The call tells the proof that the machine is sound.
            Ok(machine)
        }
        Err(BuildError::NoMemory) => Err(NoMemory),
        Err(BuildError::Check(_)) => unreachable!(),
    }
}
