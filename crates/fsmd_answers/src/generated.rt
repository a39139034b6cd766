//! Compares generated machines.

ghost use Rattle.std.specs.Prelude.{◌≤◌, IfOk};
ghost use Rattle.fsmd_answers.specs.ComparisonAnswers.{IsOfLoops};

use crate::compare::compare;
use crate::pair::Pair;
use fs_generated::generate::generate;
use fs_pair::positions::{FaceError, same_interface};
use fsmd_replies::answer::Answer;
use std::alloc::{AllocError, Global};

/// The most steps of a run of generated machines.
pub const GENERATED_STEPS: u64 = 10_000;

/// What is answered of the two machines of so many loops, from 1 to 300. The one refusal is out of memory.
pub fn compare_generated(alloc: Global, loops: u32) -> Result<Answer, AllocError>
    requires some { 1 ≤ loops }
    requires few { loops ≤ 300 }
    ensures { IfOk result (IsOfLoops loops) }
{
    let Ok((left, right)) = generate(alloc, loops) else {
        return Err(AllocError);
    };
    match same_interface(alloc, &left, &right) {
        Ok(pairing) => {
            let pair = Pair {
                left,
                right,
                pairing,
            };
            compare(alloc, &pair, GENERATED_STEPS, false)
        }
        Err(FaceError::Interface { .. }) => unreachable!(),
        Err(FaceError::NoMemory) => Err(AllocError),
    }
}
