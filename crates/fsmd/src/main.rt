//! Checks schedules: `check A B` tells whether two machines with datapath have the same behaviour, `verify A B C` whether a
//! certificate shows it, and `generate N` checks a pair of a size; `run A I` runs a machine on inputs, `replay A B I` two
//! machines on the same inputs; `fmt A` writes a machine's canonical text, and `cuts A` lists its paths; `compile P` makes the
//! machine of a program, `schedule A U` puts its basic blocks in rows under unit counts, and `bind A M` puts registers for its
//! locals; `shrink A B I` makes inputs small that show a difference, and `chain A C B [C B ..]` checks one certificate after
//! another.
//!
//! Promises: one call of `run_program`.
#![tactic(auto)]

use fsmd_tool::program::run_program;
use std::process::ExitCode;

fn main(rt: HostRuntime) -> ExitCode {
    ExitCode::from(run_program(&rt).code())
}
