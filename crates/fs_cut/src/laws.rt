//! Laws of paths and of the cover, over the definitions alone. The functions do nothing.

ghost use Rattle.std.specs.Prelude.{◌≡◌, ◌≢◌, ℕ, ◌+◌, ◌<◌, ◌≤◌, true, false, List, [], length, map, Contains, IsTrue};
ghost use Rattle.std.specs.List.{list_all, slice_index_or};
ghost use Rattle.fs_model.specs.SoundMachines.{IsSound, branch_count};
ghost use Rattle.fs_model.specs.Limits.{most_branches};
ghost use Rattle.fs_model.specs.Machines.{Fsmd};
ghost use Rattle.fs_model.specs.Stores.{Store};
ghost use Rattle.fs_model.specs.Runs.{Step as StepOf};
ghost use Rattle.fs_model.specs.Trees.{branch_holds};
ghost use Rattle.fs_cut.specs.Paths.{Point, Done, Path, BranchStep, IsPath, is_point, state_of, branch_at, target_of, steps_in};
ghost use Rattle.fs_cut.specs.Paths.{store_after, store_after_steps, takes};
ghost use Rattle.fs_cut.specs.Covers.{path_by, paths_of, points_of, cover_of, has_point, paths_from};
ghost use Rattle.fs_cut.specs.Cuts.{branch_taken, IsCut, CutsInOneWay, Remains, TakenFrom, GoesDown};

/// In each store a state is left by one branch: the only one whose literals all hold. It leads to a state.
pub fn a_step_takes_one_branch()
    ensures step { (m : Fsmd) (q : ℕ) (s : Store) → IsSound m → q < length m.states
        → StepOf m q s (target_of m q (branch_taken m q s))
        (store_after m (record { state = q; branch = branch_taken m q s }) s) }
    ensures in_range { (m : Fsmd) (q : ℕ) (s : Store) → IsSound m → q < length m.states → branch_taken m q s < branch_count m q }
    ensures holds { (m : Fsmd) (q : ℕ) (s : Store) → IsSound m → q < length m.states
        → branch_holds s (branch_at m q (branch_taken m q s)) ≡ true }
    ensures only { (m : Fsmd) (q k : ℕ) (s : Store) → IsSound m → q < length m.states → k < branch_count m q
        → branch_holds s (branch_at m q k) ≡ true → branch_taken m q s ≡ k }
    ensures leads { (m : Fsmd) (q k : ℕ) → IsSound m → k < branch_count m q → target_of m q k < length m.states }
{}

/// The points that the cover lists are the points of the machine, in order.
pub fn the_cover_has_the_points()
    ensures in_order { (m : Fsmd) → map (λ e. e.point) (cover_of m) ≡ points_of m }
    ensures points { (m : Fsmd) → IsTrue (list_all (is_point m) (points_of m)) }
    ensures all { (m : Fsmd) (P : Point) → has_point (cover_of m) P ≡ is_point m P }
    ensures ends { (m : Fsmd) (p : Path) → IsPath m p → is_point m p.to ≡ true }
    ensures states { (m : Fsmd) (P : Point) → IsSound m → is_point m P ≡ true → state_of m P < length m.states }
{}

/// The paths that the cover lists for a point are the paths of the machine that begin there.
pub fn the_cover_has_the_paths()
    ensures lists { (m : Fsmd) (P : Point) → is_point m P ≡ true → paths_from (cover_of m) P ≡ paths_of m P }
    ensures lists_no_other { (m : Fsmd) (P : Point) → is_point m P ≡ false → paths_from (cover_of m) P ≡ [] }
    ensures count { (m : Fsmd) (P : Point) → P ≢ Done → length (paths_of m P) ≡ branch_count m (state_of m P) }
    ensures few { (m : Fsmd) (P : Point) → IsSound m → length (paths_of m P) ≤ most_branches }
    ensures in_order { (m : Fsmd) (P : Point) (k : ℕ) (p : Path) → P ≢ Done → k < branch_count m (state_of m P)
        → slice_index_or (paths_of m P) k p ≡ path_by m P (state_of m P) k }
    ensures paths { (m : Fsmd) (P : Point) (p : Path) → IsSound m → is_point m P ≡ true → Contains (paths_of m P) p → IsPath m p }
    ensures from { (m : Fsmd) (P : Point) (p : Path) → Contains (paths_of m P) p → p.from ≡ P }
    ensures all { (m : Fsmd) (p : Path) → IsSound m → IsPath m p → Contains (paths_of m p.from) p }
{}

/// From a point each store takes exactly one path, and a run goes along it: the path takes its steps
/// off the run, and can be put in front of one.
pub fn runs_go_along_paths()
    ensures branch { (m : Fsmd) (P : Point) (k : ℕ) → IsSound m → is_point m P ≡ true → P ≢ Done
        → k < branch_count m (state_of m P) → IsPath m (path_by m P (state_of m P) k) }
    ensures some { (m : Fsmd) (P : Point) (s : Store) → IsSound m → is_point m P ≡ true → P ≢ Done → TakenFrom m P s }
    ensures one { (m : Fsmd) (p r : Path) (s : Store) → IsSound m → IsPath m p → IsPath m r → p.from ≡ r.from → takes m p s ≡ true
        → takes m r s ≡ true → p ≡ r }
    ensures down { (m : Fsmd) (p : Path) (n : ℕ) (s t : Store) → IsSound m → IsPath m p → takes m p s ≡ true
        → Remains m p.from n s t → GoesDown m p n s t }
    ensures up { (m : Fsmd) (p : Path) (n : ℕ) (s t : Store) → IsSound m → IsPath m p → takes m p s ≡ true
        → Remains m p.to n (store_after_steps m (steps_in p) s) t → Remains m p.from (length p.states + n) s t }
{}

/// Each run from the reset state is cut into paths in exactly one way, and the cover lists these paths.
pub fn each_run_is_cut_in_one_way()
    ensures one_way { (m : Fsmd) → IsSound m → CutsInOneWay m }
    ensures listed { (m : Fsmd) (steps : List BranchStep) (ps : List Path) (p : Path) → IsSound m → IsCut m steps ps
        → Contains ps p → Contains (paths_from (cover_of m) p.from) p }
{}
