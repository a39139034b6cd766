//! Laws of arrivals, over the definitions alone. The functions do nothing.

ghost use Rattle.std.specs.Prelude.{◌≡◌, List, Some};
ghost use Rattle.fs_model.specs.Machines.{Fsmd};
ghost use Rattle.fs_cut.specs.Paths.{Path};
ghost use Rattle.fs_model.specs.declared.sides.Side.TheVariants.{Left, Right};
ghost use Rattle.fs_model.specs.declared.sides.Pos.{Pos};
ghost use Rattle.nf_terms.specs.declared.form.Nf.{Nf};
ghost use Rattle.nf_terms.specs.Computed.{Done, after};
ghost use Rattle.nf_rel.specs.Literals.{NormalLiteral, is_refuted};
ghost use Rattle.sym_paths.specs.Execution.{execute, arrive};
ghost use Rattle.sym_entailment.specs.Outcomes.{refuted_together};

/// Whether what arrives is refuted, and which event comes, is known from both paths over the same vector: what the left one
/// leaves, the right one does not read.
pub fn outcomes_tell_refuted_arrivals()
    ensures { (a b : Fsmd) (ls : List NormalLiteral) (v : List (Pos × Nf)) (l r : Path)
        → after (arrive a b ls v (Some l) (Some r)) (λ post. Done (is_refuted post.conditions))
        ≡ refuted_together ls (execute a l Left v) (execute b r Right v) }
{}
