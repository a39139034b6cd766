//! Laws of alike paths, over the definitions alone. The functions do nothing.

ghost use Rattle.std.specs.Prelude.{◌≡◌, ◌≢◌, List, Some};
ghost use Rattle.fs_model.specs.SoundMachines.{IsSound};
ghost use Rattle.fs_model.specs.Machines.{Fsmd};
ghost use Rattle.fs_cut.specs.Paths.{Point, Path, IsPath};
ghost use Rattle.nf_terms.specs.Computed.{Done};
ghost use Rattle.fs_model.specs.declared.sides.Side.TheVariants.{Left, Right};
ghost use Rattle.fs_model.specs.declared.sides.Pos.{Pos};
ghost use Rattle.nf_terms.specs.declared.form.Nf.{Nf};
ghost use Rattle.nf_rel.specs.Literals.{NormalLiteral};
ghost use Rattle.sym_paths.specs.Execution.{Post, conditions, arrive};
ghost use Rattle.cert_bisimulation.specs.Alike.{AlikePaths, AlikePoints};
ghost use Rattle.alike_searches.specs.Evenness.{IsEven};
ghost use Rattle.alike_searches.specs.Clashes.{SomeClash};

/// Over an even vector alike paths have the same conditions, or meet the same event.
pub fn alike_paths_have_the_same_conditions()
    ensures { (a b : Fsmd) (pairs : List (Point × Point)) (p q : Path) (v : List (Pos × Nf)) → AlikePaths a b pairs p q
        → IsEven a b v → conditions a p Left v ≡ conditions b q Right v }
{}

/// From an even vector alike paths lead to an even one.
pub fn alike_paths_arrive_evenly()
    ensures { (a b : Fsmd) (pairs : List (Point × Point)) (p q : Path) (ls : List NormalLiteral)
        (v : List (Pos × Nf)) (post : Post)
        → AlikePaths a b pairs p q → IsEven a b v → arrive a b ls v (Some p) (Some q) ≡ Done post → IsEven a b post.vector }
{}

/// Over an even vector, two paths of alike points that are not of one number have conditions that clash, where both have
/// conditions.
pub fn paths_of_other_numbers_clash()
    ensures { (a b : Fsmd) (pairs : List (Point × Point)) (P Q : Point) (p q : Path) (v : List (Pos × Nf))
        (ls ms : List NormalLiteral)
        → IsSound a → AlikePoints a b pairs P Q → IsEven a b v → IsPath a p → IsPath b q → p.from ≡ P → q.from ≡ Q
        → p.branch ≢ q.branch → conditions a p Left v ≡ Done ls → conditions b q Right v ≡ Done ms → SomeClash ls ms }
{}

/// The conditions with which two paths of alike points arrive clash among themselves, where the paths are not of one number.
pub fn arrivals_of_other_numbers_clash()
    ensures { (a b : Fsmd) (pairs : List (Point × Point)) (P Q : Point) (p q : Path) (ls : List NormalLiteral)
        (v : List (Pos × Nf))
        (post : Post) → IsSound a → AlikePoints a b pairs P Q → IsEven a b v → IsPath a p → IsPath b q → p.from ≡ P → q.from ≡ Q
        → p.branch ≢ q.branch → arrive a b ls v (Some p) (Some q) ≡ Done post → SomeClash post.conditions post.conditions }
{}
