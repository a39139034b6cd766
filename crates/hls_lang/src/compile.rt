//! Programs compiled to machines.

ghost use Rattle.std.specs.Prelude.{◌≡◌, IfOk, IsErr, IsTrue, MatchResult};
ghost use Rattle.std.specs.Result.{OnOk, IfErr};
ghost use Rattle.fs_model.specs.View.{source_of};
ghost use Rattle.fs_rules.specs.MachineOfParts.{machine_of};
ghost use Rattle.fs_rules.specs.Rules.{Broken, BreaksNoRule};
ghost use Rattle.fs_rules.specs.declared.check.CheckFault.{CheckFault};
ghost use Rattle.hls_program_parts.specs.Compiled.{parts_of};
ghost use Rattle.hls_program_parts.specs.ProgramMeaning.{DoesAs};
ghost use Rattle.hls_program_parts.specs.WellFormedPrograms.{is_well_formed_program};
ghost use Rattle.hls_program_parts.specs.View.{program_of};
ghost use Rattle.hls_lang.specs.Refusals.{IsNoMemory, IsRefusalOf};

use fs_ast::build::BuildError;
use fs_ast::machine::Machine;
use fs_model::parts::Parts;
use hls_program_parts::program::Program;
use hls_program_text::fault::LangError;
use std::alloc::Global;

/// The parts to which a program is compiled, and their machine.
#[derive(Drop)]
pub struct Compiled {
    pub parts: Parts,
    pub machine: Machine,
}

/// The machine of a well-formed program. It does what the program does: from the same inputs it has a run to the same
/// outputs exactly where the program ends with them. Each statement has a state, `k1`, `k2` and so on in order of the text,
/// on the statement's line; the reset state `k0` goes to the first. Where the parts break no rule, their machine is answered or
/// `NoMemory`; where they break one, `Check`, which names the first, or `NoMemory`. `Text` is never answered. `NoMemory`: out of
/// memory, or 2^32 - 1 statements or more.
#[tactic(auto, using(crate::proofs::Few::answers))]
pub fn compile(alloc: Global, program: &Program) -> Result<Compiled, LangError>
    requires formed { IsTrue (is_well_formed_program (program_of program.now)) }
    ensures parts { IfOk result (λ c. source_of c.parts ≡ parts_of (program_of program.now)) }
    ensures machine { IfOk result (λ c. c.machine ≡ machine_of (parts_of (program_of program.now))) }
    ensures lawful { OnOk result (BreaksNoRule (parts_of (program_of program.now))) }
    ensures does { IfOk result (λ c. DoesAs (program_of program.now) c.machine) }
    ensures refused { IfErr result (λ e. IsRefusalOf (parts_of (program_of program.now)) e) }
    ensures built { BreaksNoRule (parts_of (program_of program.now))
        → MatchResult result (λ c. c.machine ≡ machine_of (parts_of (program_of program.now))) IsNoMemory }
    ensures broken { (f : CheckFault) → Broken (parts_of (program_of program.now)) f → IsErr result }
{
    let parts = program.parts(alloc)?;
    match Machine::build(alloc, &parts) {
        Ok(machine) => Ok(Compiled { parts, machine }),
        Err(BuildError::Check(fault)) => Err(LangError::Check(fault)),
        Err(BuildError::NoMemory) => Err(LangError::NoMemory),
    }
}
