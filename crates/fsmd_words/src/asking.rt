//! What words ask.

ghost use Rattle.std.specs.Prelude.{◌≡◌};
ghost use Rattle.fsmd_words.specs.declared.asking.AskError.TheVariants as errors;

use std::alloc::AllocError;

/// What is asked: a command, its files as they were named, and its numbers.
///
/// `steps` is the greatest number of steps of a run, from 1 to 100,000, and `n` the number of generated loops, from 1
/// to 300. The files of a chain are an odd number from 3 to 129: a machine, and a certificate and a machine for each link.
#[derive(Drop, Debug)]
pub enum Ask {
    /// `check A B [--cert F] [--steps N]`: whether two machines have the same behaviour.
    Check {
        left: String,
        right: String,
        cert: Option<String>,
        steps: u64,
    },
    /// `verify A B C`: whether a certificate shows that two machines have the same behaviour.
    Verify {
        left: String,
        right: String,
        cert: String,
    },
    /// `run A I [--steps N]`: a run of a machine on inputs.
    Run {
        machine: String,
        inputs: String,
        steps: u64,
    },
    /// `replay A B I [--steps N]`: runs of two machines on the same inputs.
    Replay {
        left: String,
        right: String,
        inputs: String,
        steps: u64,
    },
    /// `fmt A`: the canonical text of a machine.
    Fmt {
        machine: String,
    },
    /// `cuts A`: the paths of a machine between its cutpoints.
    Cuts {
        machine: String,
    },
    /// `generate N`: whether two machines of so many loops have the same behaviour.
    Generate {
        n: u32,
    },
    /// `compile P`: the machine of a program.
    Compile {
        program: String,
    },
    /// `schedule A U`: a machine with its lines in rows, under the units of a file.
    Schedule {
        machine: String,
        units: String,
    },
    /// `bind A M`: a machine with registers for its locals, by a file.
    Bind {
        machine: String,
        binding: String,
    },
    /// `shrink A B I [--steps N]`: inputs that show a difference of two machines, made small.
    Shrink {
        left: String,
        right: String,
        inputs: String,
        steps: u64,
    },
    /// `chain A C B [C B ..]`: whether certificates show that each machine has the behaviour of the one before.
    Chain {
        files: Vec<String>,
    },
}

/// Why nothing is asked.
#[derive(Clone, Copy)]
pub enum AskError {
    /// The words are no command, or ask for help.
    Usage,
    /// Out of memory.
    NoMemory,
}

impl From<AllocError> for AskError {
    ghost from_gives = { λ _ error. error ≡ errors.NoMemory };

    fn from(_error: AllocError) -> AskError {
        AskError::NoMemory
    }
}
