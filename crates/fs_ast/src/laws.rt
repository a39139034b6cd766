//! What the branches of a machine mean, and which parts keep the rules. The functions do nothing.

ghost use Rattle.std.specs.Prelude.{◌≡◌, ℕ, ◌<◌, Some, length, slice_get};
ghost use Rattle.fs_model.specs.Machines.{Fsmd, transitions_of};
ghost use Rattle.fs_model.specs.Source.{Source};
ghost use Rattle.fs_model.specs.Stores.{Store};
ghost use Rattle.fs_rules.specs.MachineOfParts.{machine_of};
ghost use Rattle.fs_rules.specs.Rules.{BreaksNoRule};
ghost use Rattle.fs_model.specs.SoundMachines.{IsSound};
ghost use Rattle.fs_model.specs.Trees.{Branch, branches_of};
ghost use Rattle.fs_ast.specs.OpenBranches.{TakesOneBranch};
ghost use Rattle.fs_ast.specs.Branches.{IsSoundBranch};

/// In each store exactly one branch of a state has all its literals true: the one of the transition
/// that a step takes.
pub fn one_branch_is_taken()
    ensures { (m : Fsmd) (q : ℕ) (s : Store) → IsSound m → q < length m.states → TakesOneBranch (transitions_of m q) s }
{}

/// Each branch of a sound machine uses each variable as the scalar, the array or the port that it is, changes no
/// input, assigns no scalar twice, has at most 16 emits and numbers from 0 to 2^127 - 1, and leads to a state.
pub fn branches_are_sound()
    ensures { (m : Fsmd) (q k : ℕ) (b : Branch) → IsSound m → slice_get (branches_of (transitions_of m q)) k ≡ Some b
        → IsSoundBranch m.variables (length m.states) b }
{}

/// Parts that spell a sound machine are lawful.
pub fn parts_of_a_sound_machine_are_lawful()
    ensures { (p : Source) → IsSound (machine_of p) → BreaksNoRule p }
{}
