//! Laws of tables of alike machines, over the definitions alone. The functions do nothing.

ghost use Rattle.std.specs.Prelude.{◌≡◌, ◌≢◌, ◌⊎◌, true, List, Some};
ghost use Rattle.std.specs.List.{AllByRecursion};
ghost use Rattle.fs_model.specs.SoundMachines.{IsSound};
ghost use Rattle.fs_model.specs.Machines.{Fsmd};
ghost use Rattle.fs_cut.specs.Paths.{Point, Path, IsPath};
ghost use Rattle.cert_bisimulation.specs.declared.mode.Mode.{Mode};
ghost use Rattle.cert_bisimulation.specs.declared.mode.Mode.TheVariants.{Both, End};
ghost use Rattle.fs_pair.specs.PairedOutputs.{output_pairs};
ghost use Rattle.nf_terms.specs.Computed.{Done};
ghost use Rattle.fs_model.specs.declared.sides.Pos.{Pos};
ghost use Rattle.nf_terms.specs.declared.form.Nf.{Nf};
ghost use Rattle.nf_rel.specs.Literals.{NormalLiteral, is_refuted};
ghost use Rattle.sym_paths.specs.Execution.{Post, arrive};
ghost use Rattle.sym_facts.specs.Facts.{Fact, vector_of};
ghost use Rattle.search_tables.specs.Obligations.{same_forms};
ghost use Rattle.search_tables.specs.Modes.{Found, mode_of};
ghost use Rattle.cert_bisimulation.specs.Alike.{DeclareTheSame, AlikePoints, Alike};
ghost use Rattle.alike_searches.specs.Evenness.{IsEven};
ghost use Rattle.search_tables.specs.declared.moves.Move.{Move};
ghost use Rattle.search_tables.specs.SearchTables.{MachinePair, SearchNode, Table, first_table};
ghost use Rattle.search_tables.specs.Next.{Change, mode_at, next_move};
ghost use Rattle.search_tables.specs.Legal.{Makes};
ghost use Rattle.alike_searches.specs.Even.{IsEvenBetween, IsEvenNode, IsEvenTable};

/// At alike points, under a fact with an even vector, both machines move, where no event is met.
pub fn alike_points_move_together()
    ensures { (a b : Fsmd) (pairs : List (Point × Point)) (P Q : Point) (f : Fact) (mode : Mode) → IsSound a → IsSound b
        → AlikePoints a b pairs P Q → IsEven a b (vector_of f.positions) → mode_of a b f P Q ≡ Found mode → mode ≡ Both }
{}

/// In an even vector the two terms of each output are the same.
pub fn outputs_of_even_vectors_are_the_same()
    ensures { (a b : Fsmd) → IsSound b → DeclareTheSame a b → (v : List (Pos × Nf)) → IsEven a b v
        → AllByRecursion (λ o. same_forms v o.sort o.left o.right ≡ true) (output_pairs 0 a.variables b.variables) }
{}

/// Over an even vector, what arrives at a pair of alike points by two paths that are not of one number is refuted.
pub fn moves_of_other_numbers_are_refuted()
    ensures { (a b : Fsmd) (pairs : List (Point × Point)) (P Q : Point) (p q : Path) (ls : List NormalLiteral)
        (v : List (Pos × Nf)) (post : Post) → IsSound a → AlikePoints a b pairs P Q → IsEven a b v → IsPath a p → IsPath b q
        → p.from ≡ P → q.from ≡ Q → p.branch ≢ q.branch → arrive a b ls v (Some p) (Some q) ≡ Done post
        → is_refuted post.conditions ≡ true }
{}

/// The fact of an even node has an even vector, and at the node both machines move or none does, where no event is met.
pub fn even_nodes_move_together()
    ensures vector { (a b : Fsmd) (f : Fact) → IsSound a → IsSound b → DeclareTheSame a b → IsEvenBetween a b f
        → IsEven a b (vector_of f.positions) }
    ensures modes { (m : MachinePair) (pairs : List (Point × Point)) (n : SearchNode) (mode : Mode) → IsSound m.left
        → IsSound m.right
        → Alike m.left m.right pairs → IsEvenNode m.left m.right pairs n
        → mode_at m n ≡ Found mode → (mode ≡ Both) ⊎ (mode ≡ End) }
{}

/// Each table that a legal list of moves of alike machines makes is even: the first table is, and the next move keeps it so.
pub fn tables_of_alike_machines_are_even()
    ensures first { (m : MachinePair) (pairs : List (Point × Point)) → IsSound m.left → IsSound m.right
        → Alike m.left m.right pairs → IsEvenTable m.left m.right pairs (first_table m) }
    ensures change { (m : MachinePair) (pairs : List (Point × Point)) (T U : Table) (x : Move) → IsSound m.left → IsSound m.right
        → Alike m.left m.right pairs → IsEvenTable m.left m.right pairs T → next_move m T ≡ Change x U
        → IsEvenTable m.left m.right pairs U }
    ensures legal { (m : MachinePair) (pairs : List (Point × Point)) (moves : List Move) (T : Table) → IsSound m.left
        → IsSound m.right → Alike m.left m.right pairs → Makes m moves T → IsEvenTable m.left m.right pairs T }
{}
