//! Laws of joins and rebases, over the definitions alone. The functions do nothing.

ghost use Rattle.std.specs.Prelude.{◌≡◌, ◌+◌, ◌<◌, ◌≤◌, length, map, true, false, IsTrue, List};
ghost use Rattle.fs_pair.specs.declared.positions.Position.{Position};
ghost use Rattle.nf_terms.specs.TermMeaning.{Valuation};
ghost use Rattle.nf_terms.specs.Computed.{Done};
ghost use Rattle.nf_substitution.specs.Vectors.{vector_meaning};
ghost use Rattle.nf_rel.specs.Literals.{all_true_in};
ghost use Rattle.sym_paths.specs.Execution.{Post};
ghost use Rattle.sym_facts.specs.Facts.{Fact, HoldsIn, is_solved, most_literals};
ghost use Rattle.sym_facts.specs.FactParts.{are_distinct_positions};
ghost use Rattle.sym_facts.specs.Pairings.{IsFactOf};
ghost use Rattle.sym_facts.specs.Entailment.{Missing, entails, is_nothing};
ghost use Rattle.propagate.specs.Joins.{join};
ghost use Rattle.propagate.specs.Rebases.{rebase};
ghost use Rattle.propagate.specs.Strength.{strength};

/// The join holds of every pair of which the old fact holds, and of what the post's vector means where the post's conditions are
/// true.
pub fn joins_hold()
    ensures old { (w : Valuation) (old new : Fact) (post : Post) (missing : Missing) → join old post missing ≡ Done new
        → HoldsIn w old → HoldsIn w new }
    ensures post { (w : Valuation) (old new : Fact) (post : Post) (missing : Missing) → entails post old ≡ Done missing
        → join old post missing ≡ Done new → all_true_in w post.conditions ≡ true → HoldsIn (vector_meaning post.vector w) new }
{}

/// The rebased fact holds of what the post's vector means where the post's conditions are true.
pub fn rebases_hold()
    ensures { (w : Valuation) (post : Post) (ps : List Position) (f : Fact) → rebase post ps ≡ Done f
        → all_true_in w post.conditions ≡ true → HoldsIn (vector_meaning post.vector w) f }
{}

/// A join of a solved fact, and every rebase, is solved: no position with an equation is mentioned.
pub fn propagated_facts_are_solved()
    ensures join { (old new : Fact) (post : Post) (missing : Missing) → join old post missing ≡ Done new
        → IsTrue (are_distinct_positions (map (λ p. p.pos) old.positions)) → IsTrue (is_solved old) → IsTrue (is_solved new) }
    ensures rebase { (post : Post) (ps : List Position) (f : Fact) → rebase post ps ≡ Done f
        → IsTrue (are_distinct_positions (map (λ p. p.pos) f.positions)) → IsTrue (is_solved f) }
{}

/// A rebased fact is of the positions: it has exactly these, each with a form of its sort, whose symbols are among them.
pub fn rebased_facts_are_of_the_positions()
    ensures { (post : Post) (ps : List Position) (f : Fact) → rebase post ps ≡ Done f → IsFactOf ps f }
{}

/// A joined fact is of the positions where the old fact is.
pub fn joined_facts_are_of_the_positions()
    ensures { (ps : List Position) (old new : Fact) (post : Post) (missing : Missing) → join old post missing ≡ Done new
        → IsFactOf ps old → IsFactOf ps new }
{}

/// A join says less than the old fact where something of it is not entailed: it has fewer equations and literals.
pub fn joins_say_less()
    ensures { (old new : Fact) (post : Post) (missing : Missing) → entails post old ≡ Done missing → is_nothing missing ≡ false
        → join old post missing ≡ Done new → strength new < strength old }
{}

/// A rebased fact says little: at most one equation a position, and at most 64 literals.
pub fn rebases_say_little()
    ensures { (post : Post) (ps : List Position) (f : Fact) → rebase post ps ≡ Done f → strength f ≤ length ps + most_literals }
{}

/// A rebased fact has at most 64 literals.
pub fn rebased_facts_have_few_literals()
    ensures { (post : Post) (ps : List Position) (f : Fact) → rebase post ps ≡ Done f → length f.literals ≤ most_literals }
{}
