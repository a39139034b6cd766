//! Laws of registers in place of locals. The functions do nothing.

ghost use Rattle.std.specs.Prelude.{◌≡◌, ◌≢◌, ℕ, ◌<◌, Bool, true, false, List, IsTrue};
ghost use Rattle.fs_model.specs.Source.{Source};
ghost use Rattle.fs_model.specs.Machines.{Fsmd};
ghost use Rattle.fs_model.specs.WellFormed.{is_well_formed};
ghost use Rattle.fs_model.specs.Runs.{SameBehaviour};
ghost use Rattle.fs_model.specs.SoundMachines.{IsSound, branch_count};
ghost use Rattle.fs_cut.specs.Paths.{branch_at, target_of};
ghost use Rattle.fs_ast.specs.Rules.{BreaksNoRule};
ghost use Rattle.fs_ast.specs.MachineOfParts.{machine_of, variables_of};
ghost use Rattle.hls_bind.specs.Liveness.{reads, writes, IsLive};
ghost use Rattle.hls_bind.specs.Closed.{IsClosedUnderFlow};
ghost use Rattle.hls_bind.specs.Bindings.{bound_parts, IsBindingOf, AreRegisters};
ghost use Rattle.hls_bind.specs.Conflicts.{Conflict, IsTwice, Clobbers};

/// What is live at a state is what each closed set has: a state of which a branch reads is in it, so is one from
/// which a branch leads on into it without writing, and no closed set lacks it.
pub fn liveness_is_least()
    ensures reading { (m : Fsmd) (x q k : ℕ) → k < branch_count m q → reads x (branch_at m q k) ≡ true → IsLive m x q }
    ensures passing { (m : Fsmd) (x q k : ℕ) → k < branch_count m q → writes x (branch_at m q k) ≡ false
        → target_of m q k ≢ m.reset → IsLive m x (target_of m q k) → IsLive m x q }
    ensures least { (m : Fsmd) (x : ℕ) (set : ℕ → Bool) → IsClosedUnderFlow m x set → (q : ℕ) → IsLive m x q → set q ≡ true }
{}

/// The parts in which registers stand for locals spell a machine of the same behaviour, where no branch clobbers.
pub fn registers_keep_behaviour()
    ensures { (p : Source) (b : List (ℕ × List ℕ)) (registers : List (List ℕ)) → IsSound (machine_of p)
        → IsSound (machine_of (bound_parts b registers p)) → IsBindingOf (variables_of p.declarations) b
        → AreRegisters b registers → ((c : Conflict) → Clobbers b (machine_of p) c → ⊥)
        → SameBehaviour (machine_of p) (machine_of (bound_parts b registers p)) }
{}

/// The parts in which registers stand for locals are well formed and keep all rules, where no branch writes two locals
/// with one register.
pub fn registers_keep_the_rules()
    ensures formed { (p : Source) (b : List (ℕ × List ℕ)) (registers : List (List ℕ)) → IsTrue (is_well_formed p)
        → IsTrue (is_well_formed (bound_parts b registers p)) }
    ensures lawful { (p : Source) (b : List (ℕ × List ℕ)) (registers : List (List ℕ)) → IsSound (machine_of p) → BreaksNoRule p
        → IsBindingOf (variables_of p.declarations) b → AreRegisters b registers
        → ((c : Conflict) → IsTwice b (machine_of p) c → ⊥) → BreaksNoRule (bound_parts b registers p) }
{}
