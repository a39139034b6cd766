//! The parts of a program.

ghost use Rattle.std.specs.Prelude.{◌≡◌, ◌∷◌, map, IfOk};
ghost use Rattle.fs_model.specs.View.{declaration_of, source_of, source_state_of};
ghost use Rattle.hls_program_parts.specs.Compiled.{entry_block, numbered_states, parts_of, state_name, states_of};
ghost use Rattle.hls_program_parts.specs.View.{block_of, program_of};

use crate::counts::{count, first};
use crate::program::{Program, Stmt};
use crate::states::add_block;
use crate::transitions::{state_name, step};
use fs_model::name::NoMemory;
use fs_model::parts::{Decl, Parts, RawState};
use std::alloc::Global;

impl Program {
    /// The parts of the machine to which the program is compiled: its declarations, the reset state `k0`, which goes to the
    /// first statement, and a state for each statement, `k1`, `k2` and so on in order of the text, on the statement's
    /// line. The only refusal is out of memory, which 2^32 - 1 states are, too.
    pub fn parts(&self, alloc: Global) -> Result<Parts, NoMemory>
        ensures { IfOk result (λ p. source_of p ≡ parts_of (program_of self.now)) }
    {
        let states = states(alloc, &self.body)?;
        let decls = declarations(alloc, &self.decls)?;
        Ok(Parts {
            decls,
            reset_line: 1,
            reset: state_name(alloc, 0)?,
            states,
        })
    }
}

// Copies of declarations.
fn declarations(alloc: Global, decls: &[Decl]) -> Result<Vec<Decl>, NoMemory>
    ensures { IfOk result (λ out. map declaration_of out.items ≡ map declaration_of decls.now) }
{
    let mut out = Vec::new(alloc);
    for decl in decls {
        out.push(decl.try_clone(alloc)?)?;
    }
    Ok(out)
}

// The state of the reset, and one for each statement.
fn states(alloc: Global, body: &[Stmt]) -> Result<Vec<RawState>, NoMemory>
    ensures { IfOk result
        (λ out. map source_state_of out.items ≡ numbered_states 0
        (entry_block (block_of body.now) ∷ states_of state_name (block_of body.now) 1 0)) }
{
    if count(body) == u32::MAX {
        return Err(NoMemory);
    }
    let mut out = Vec::new(alloc);
    out.push(step(alloc, 0, 1, first(body, 1, 0), Vec::new(alloc))?)?;
    add_block(alloc, body, 1, 0, &mut out)?;
    Ok(out)
}
