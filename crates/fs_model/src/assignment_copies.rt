//! Copies of guards and assignments over names.

ghost use Rattle.std.specs.Prelude.{◌≡◌, IfOk};
ghost use Rattle.fs_model.specs.View.{named_assignment, named_guard};

use crate::copies::Unrenamed;
use crate::name::{Name, NoMemory};
use crate::parts::{Assign, Guard};
use std::alloc::Global;

/// A copy of a guard. The one refusal is out of memory.
#[tactic(auto, using(crate::proofs::SameCopies::guard_same))]
pub fn copied_guard(alloc: Global, guard: &Guard) -> Result<Guard, NoMemory>
    ensures { IfOk result (λ g. named_guard g ≡ named_guard guard.now) }
{
    guard.copy_renamed(alloc, &Unrenamed)
}

/// A copy of an assignment. The one refusal is out of memory.
#[tactic(auto, using(crate::proofs::SameCopies::assignment_same))]
pub fn copied_assignment(alloc: Global, assign: &Assign<Name>) -> Result<Assign<Name>, NoMemory>
    ensures { IfOk result (λ a. named_assignment a ≡ named_assignment assign.now) }
{
    assign.copy_renamed(alloc, &Unrenamed)
}
