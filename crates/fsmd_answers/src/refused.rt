//! Why nothing is given of what a file should spell.

ghost use Rattle.std.specs.Prelude.{◌≡◌, Some, None, IfOk};
ghost use Rattle.std.specs.Result.{OnErr};
ghost use Rattle.fsmd_answers.specs.declared.refused.Refused.TheVariants.{NoMemory};
ghost use Rattle.fsmd_answers.specs.Refusing.{answer_in, made_answer};

use fs_model::name::NoMemory as OutOfMemory;
use fsmd_replies::answer::Answer;
use std::alloc::AllocError;

/// Why nothing is given of what a file should spell: a machine, inputs, a certificate, a program, unit counts or a binding.
#[derive(Drop)]
pub enum Refused {
    /// This is answered instead.
    Answered(Answer),
    /// Out of memory.
    NoMemory,
}

impl From<AllocError> for Refused {
    ghost from_gives = { λ _ refused. refused ≡ NoMemory };

    fn from(_error: AllocError) -> Refused {
        Refused::NoMemory
    }
}

impl From<OutOfMemory> for Refused {
    ghost from_gives = { λ _ refused. refused ≡ NoMemory };

    fn from(_error: OutOfMemory) -> Refused {
        Refused::NoMemory
    }
}

/// The answer that is given, or that is in a refusal. The one error is out of memory.
pub fn answer_of(given: Result<Answer, Refused>) -> Result<Answer, AllocError>
    ensures ok { IfOk result (λ answer. answer_in given ≡ Some answer) }
    ensures none { OnErr result (answer_in given ≡ None) }
{
    match given {
        Ok(answer) => Ok(answer),
        Err(Refused::Answered(answer)) => Ok(answer),
        Err(Refused::NoMemory) => Err(AllocError),
    }
}

/// An answer that takes memory to make, or that there is none.
pub fn made_answer(made: Result<Answer, AllocError>) -> Result<Answer, Refused>
    ensures { result ≡ made_answer made }
{
    match made {
        Ok(answer) => Ok(answer),
        Err(_) => Err(Refused::NoMemory),
    }
}
