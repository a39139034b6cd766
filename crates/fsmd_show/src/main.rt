//! Shows machines, searches and certificates: `machine A` is a machine as a graph in DOT, `pair A B` the table of the search of
//! two machines, `why A B` tells what led to the answer of `check`, `certificate A B C` what a certificate owes, by number,
//! `inputs A B` is the file of inputs that show a difference, and `trace A I` a run step by step.
//!
//! Promises: one call of `run_program`.
#![tactic(auto)]

use show_tool::program::run_program;
use std::process::ExitCode;

fn main(rt: HostRuntime) -> ExitCode {
    ExitCode::from(run_program(&rt).code())
}
