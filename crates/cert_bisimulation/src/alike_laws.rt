//! Laws of machines that are alike, over the definitions alone. The functions do nothing.

ghost use Rattle.std.specs.Prelude.{◌≡◌, List};
ghost use Rattle.fs_model.specs.SoundMachines.{IsSound};
ghost use Rattle.fs_model.specs.Machines.{Fsmd};
ghost use Rattle.fs_model.specs.Runs.{SameBehaviour};
ghost use Rattle.fs_model.specs.Stores.{Store};
ghost use Rattle.fs_cut.specs.Paths.{Point, Path, steps_in, store_after_steps};
ghost use Rattle.cert_bisimulation.specs.Alike.{Alike, left_after};
ghost use Rattle.cert_bisimulation.specs.ExpressionValues.{value_in, array_in, list_in};

/// Alike machines have the same behaviour.
pub fn alike_machines_behave_alike()
    ensures { (a b : Fsmd) (pairs : List (Point × Point)) → IsSound a → IsSound b → Alike a b pairs → SameBehaviour a b }
{}

/// What a path leaves is what its expressions are worth over the store at its start.
pub fn paths_leave_their_expressions()
    ensures scalars { (m : Fsmd) (p : Path) (s : Store)
        → (λ x. value_in s ((left_after m p).scalar x)) ≡ (store_after_steps m (steps_in p) s).scalar }
    ensures arrays { (m : Fsmd) (p : Path) (s : Store)
        → (λ x. array_in s ((left_after m p).array x)) ≡ (store_after_steps m (steps_in p) s).array }
    ensures ports { (m : Fsmd) (p : Path) (s : Store)
        → (λ x. list_in s ((left_after m p).port x)) ≡ (store_after_steps m (steps_in p) s).port }
{}
