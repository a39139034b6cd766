//! Laws of certificates, over the definitions alone. The functions do nothing.

ghost use Rattle.std.specs.Prelude.{◌≡◌, ◌≤◌, ◌∷◌, [], IsTrue, List, None, length};
ghost use Rattle.fs_cut.specs.Paths.{Point};
ghost use Rattle.fs_model.specs.SoundMachines.{IsSound};
ghost use Rattle.fs_model.specs.Machines.{Fsmd};
ghost use Rattle.fs_model.specs.Runs.{SameBehaviour};
ghost use Rattle.sym_facts.specs.Interfaces.{interface_fault};
ghost use Rattle.sym_facts.specs.Positions.{positions};
ghost use Rattle.cert_bisimulation.specs.Tables.{Node as PlainNode};
ghost use Rattle.sym_facts.specs.Facts.{Fact as PlainFact};
ghost use Rattle.sym_facts.specs.Starts.{start_fact};
ghost use Rattle.cert_model.specs.Lawful.{IsLawful, points_differ};
ghost use Rattle.cert_model.specs.Obligations.{Judged, Yes, nodes_at, one_of, verdict};
ghost use Rattle.cert_model.specs.declared.reason.Reason.{Reason};

/// Two machines with equal interfaces have the same behaviour where all obligations of a lawful certificate hold.
pub fn obligations_give_same_behaviour()
    ensures { (a b : Fsmd) → IsSound a → IsSound b → interface_fault a b ≡ None → (nodes : List (PlainNode PlainFact))
        → IsLawful a b nodes → verdict a b (start_fact (positions a b)) nodes ≡ Yes → SameBehaviour a b }
{}

/// Of nodes at different points at most one stands at two points; and one that is tried alone is judged as itself. So there a
/// start or a move fails for what its one target lacks.
pub fn nodes_at_different_points_stand_alone()
    ensures alone { (nodes : List (PlainNode PlainFact)) → IsTrue (points_differ nodes) → (P Q : Point)
        → length (nodes_at nodes P Q) ≤ 1 }
    ensures judged { (none : Reason) → (j : Judged) → one_of none (j ∷ []) ≡ j }
{}
