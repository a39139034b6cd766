//! Laws of steps, runs and behaviour, over the definitions alone. The functions do nothing.

ghost use Rattle.std.specs.Prelude.{◌≡◌, ℕ, Bool, true, List};
ghost use Rattle.std.specs.List.{list_all};
ghost use Rattle.std.specs.Option.{option_to_list};
ghost use Rattle.fs_model.specs.Expressions.{Literal, Assignment, Transition};
ghost use Rattle.fs_model.specs.Machines.{Fsmd};
ghost use Rattle.fs_model.specs.Stores.{Store};
ghost use Rattle.fs_model.specs.Trees.{branches_of, negated_literal, effects_open, effect_taken};
ghost use Rattle.fs_model.specs.PartFolds.{transition_passes, branch_passes};
ghost use Rattle.fs_model.specs.Runs.{Step, FirstReturn, SameBehaviour};

/// One step is determined: from a state and a store it leads to one state and one store.
pub fn one_step_is_determined()
    ensures state { (m : Fsmd) (q : ℕ) (s : Store) (r u : ℕ) (t v : Store) → Step m q s r t → Step m q s u v → r ≡ u }
    ensures store { (m : Fsmd) (q : ℕ) (s : Store) (r u : ℕ) (t v : Store) → Step m q s r t → Step m q s u v → t ≡ v }
{}

/// A run's end is determined: where it ends, and after how many steps.
pub fn a_run_is_determined()
    ensures steps { (m : Fsmd) (s t u : Store) (n k : ℕ) → FirstReturn m n m.reset s t → FirstReturn m k m.reset s u → n ≡ k }
    ensures end { (m : Fsmd) (s t u : Store) (n k : ℕ) → FirstReturn m n m.reset s t → FirstReturn m k m.reset s u → t ≡ u }
{}

/// A machine has the behaviour that it has.
pub fn same_behaviour_is_reflexive()
    ensures { (a : Fsmd) → SameBehaviour a a }
{}

/// Behaviour is the same both ways.
pub fn same_behaviour_is_symmetric()
    ensures { (a b : Fsmd) → SameBehaviour a b → SameBehaviour b a }
{}

/// Behaviour goes through a third machine.
pub fn same_behaviour_is_transitive()
    ensures { (a b c : Fsmd) → SameBehaviour a b → SameBehaviour b c → SameBehaviour a c }
{}

/// In each store the branches whose literals all hold are one, that of the transition taken, or none where none is taken.
pub fn one_branch_is_open()
    ensures { (lines : List (Transition ℕ ℕ)) (s : Store)
        → effects_open (branches_of lines) s ≡ option_to_list (effect_taken lines s) }
{}

/// Tests that the literals, the assignments and the target of each transition pass are passed by those of
/// each branch, where the test of literals doesn't tell a literal from its negation.
pub fn branches_pass_as_transitions_do()
    ensures { (T : Literal ℕ → Bool) (C : List (Assignment ℕ) → Bool) (S : ℕ → Bool) (lines : List (Transition ℕ ℕ))
        → ((l : Literal ℕ) → T (negated_literal l) ≡ T l)
        → list_all (transition_passes T C S) lines ≡ true → list_all (branch_passes T C S) (branches_of lines) ≡ true }
{}
