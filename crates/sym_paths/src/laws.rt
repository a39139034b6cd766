//! Laws of symbolic paths, over the definitions alone. The functions do nothing.

ghost use Rattle.std.specs.Prelude.{◌≡◌, ◌&&◌, ℕ, List, Option};
ghost use Rattle.fs_model.specs.Machines.{Fsmd};
ghost use Rattle.fs_cut.specs.Paths.{Path, BranchStep, steps_in, store_after_steps, takes};
ghost use Rattle.nf_terms.specs.TermMeaning.{Valuation};
ghost use Rattle.nf_terms.specs.Computed.{Done};
ghost use Rattle.fs_model.specs.declared.sides.Side.{Side};
ghost use Rattle.fs_model.specs.declared.sides.Side.TheVariants.{Left, Right};
ghost use Rattle.fs_model.specs.declared.sides.Pos.{Pos};
ghost use Rattle.nf_terms.specs.declared.form.Nf.{Nf};
ghost use Rattle.nf_terms.specs.declared.symbols.Sort.{Sort};
ghost use Rattle.nf_vectors.specs.Vectors.{form_at, vector_meaning};
ghost use Rattle.nf_rel.specs.Literals.{NormalLiteral, all_true_in};
ghost use Rattle.sym_paths.specs.ValuationStores.{at, store_on, other};
ghost use Rattle.sym_paths.specs.Execution.{Post, conditions, steps_over, execute, arrive, takes_if, effect_if};

/// A path's conditions are true exactly where the store takes it, it ends in the store that the vector means, and the other
/// machine's store stays.
pub fn paths_mean_their_steps()
    ensures conditions { (m : Fsmd) (p : Path) (side : Side) (v : List (Pos × Nf)) (ls : List NormalLiteral) (w : Valuation)
        → conditions m p side v ≡ Done ls → all_true_in w ls ≡ takes m p (store_on side (vector_meaning v w)) }
    ensures end { (m : Fsmd) (p : Path) (side : Side) (v u : List (Pos × Nf)) (w : Valuation)
        → steps_over m side (steps_in p) v ≡ Done u
        → store_on side (vector_meaning u w) ≡ store_after_steps m (steps_in p) (store_on side (vector_meaning v w)) }
    ensures stays { (m : Fsmd) (p : Path) (side : Side) (v u : List (Pos × Nf)) (w : Valuation)
        → steps_over m side (steps_in p) v ≡ Done u
        → store_on (other side) (vector_meaning u w) ≡ store_on (other side) (vector_meaning v w) }
{}

/// The forms of the other machine's positions stay where a path of one machine is executed: they are the same terms, and do not
/// only mean the same.
pub fn the_other_machines_forms_stay()
    ensures steps { (m : Fsmd) (steps : List BranchStep) (side : Side) (v u : List (Pos × Nf)) (s : Sort) (x : ℕ)
        → steps_over m side steps v ≡ Done u → form_at s (at (other side) x) u ≡ form_at s (at (other side) x) v }
    ensures executed { (m : Fsmd) (p : Path) (side : Side) (v : List (Pos × Nf)) (post : Post) (s : Sort) (x : ℕ)
        → execute m p side v ≡ Done post → form_at s (at (other side) x) post.vector ≡ form_at s (at (other side) x) v }
{}

/// What arrives means what both paths do: its conditions are true exactly where the given literals are and both stores take their
/// paths, and its vector means the stores in which they end.
pub fn arrivals_mean_their_paths()
    ensures conditions { (a b : Fsmd) (ls : List NormalLiteral) (v : List (Pos × Nf)) (left right : Option Path) (post : Post)
        (w : Valuation) → arrive a b ls v left right ≡ Done post
        → all_true_in w post.conditions
        ≡ (all_true_in w ls
        && (takes_if a left (store_on Left (vector_meaning v w)) && takes_if b right (store_on Right (vector_meaning v w)))) }
    ensures left { (a b : Fsmd) (ls : List NormalLiteral) (v : List (Pos × Nf)) (left right : Option Path) (post : Post)
        (w : Valuation) → arrive a b ls v left right ≡ Done post
        → store_on Left (vector_meaning post.vector w) ≡ effect_if a left (store_on Left (vector_meaning v w)) }
    ensures right { (a b : Fsmd) (ls : List NormalLiteral) (v : List (Pos × Nf)) (left right : Option Path) (post : Post)
        (w : Valuation) → arrive a b ls v left right ≡ Done post
        → store_on Right (vector_meaning post.vector w) ≡ effect_if b right (store_on Right (vector_meaning v w)) }
{}
