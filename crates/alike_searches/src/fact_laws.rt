//! Laws of even facts, over the definitions alone. The functions do nothing.

ghost use Rattle.std.specs.Prelude.{◌≡◌, true, List};
ghost use Rattle.std.specs.List.{list_all};
ghost use Rattle.fs_model.specs.SoundMachines.{IsSound};
ghost use Rattle.fs_model.specs.Machines.{Fsmd};
ghost use Rattle.fs_pair.specs.Positions.{positions};
ghost use Rattle.fs_pair.specs.declared.positions.Position.{Position};
ghost use Rattle.nf_terms.specs.Computed.{Done};
ghost use Rattle.fs_model.specs.declared.sides.Pos.{Pos};
ghost use Rattle.nf_terms.specs.declared.form.Nf.{Nf};
ghost use Rattle.fs_model.specs.declared.parts.Sort.{Sort};
ghost use Rattle.sym_paths.specs.Execution.{Post};
ghost use Rattle.sym_facts.specs.Facts.{Fact, has_its_sort, vector_of};
ghost use Rattle.sym_facts.specs.Starts.{start_fact};
ghost use Rattle.sym_facts.specs.Entailment.{Missing, entails};
ghost use Rattle.search_tables.specs.Joins.{join};
ghost use Rattle.search_tables.specs.Rebases.{rebase};
ghost use Rattle.alike_searches.specs.Risen.{IsRisenVector};
ghost use Rattle.cert_bisimulation.specs.Alike.{DeclareTheSame};
ghost use Rattle.alike_searches.specs.Evenness.{IsEven};
ghost use Rattle.alike_searches.specs.EvenFacts.{places_of, AreEvenValues, IsEvenFact};
ghost use Rattle.alike_searches.specs.Couples.{AreCouples, sorted_positions};
ghost use Rattle.alike_searches.specs.RisenFacts.{IsRisenFact};

/// The positions of machines that declare the same stand in couples, and their start fact is even.
pub fn machines_that_declare_the_same_begin_evenly()
    ensures couples { (a b : Fsmd) → IsSound b → DeclareTheSame a b → AreCouples a b (sorted_positions (positions a b)) }
    ensures start { (a b : Fsmd) → IsSound a → IsSound b → DeclareTheSame a b → IsEvenFact (start_fact (positions a b)) }
{}

/// In an even vector each couple has equal values, and an even fact has an even vector.
pub fn even_facts_have_even_vectors()
    ensures values { (a b : Fsmd) (v : List (Pos × Nf)) (ps : List (Pos × Sort)) → IsEven a b v → AreCouples a b ps
        → AreEvenValues v ps }
    ensures vector { (a b : Fsmd) (f : Fact) → IsSound a → IsSound b → DeclareTheSame a b
        → places_of f.positions ≡ sorted_positions (positions a b)
        → list_all (λ p. has_its_sort p.sort p.equation) f.positions ≡ true
        → IsEvenFact f → IsEven a b (vector_of f.positions) }
{}

/// The rebase of a post in whose vector each couple has equal values is even.
pub fn rebases_keep_evenness()
    ensures { (post : Post) (ps : List Position) (f : Fact) → AreEvenValues post.vector (sorted_positions ps)
        → rebase post ps ≡ Done f → IsEvenFact f }
{}

/// The join of an even fact with a post in whose vector each couple has equal values is even.
pub fn joins_keep_evenness()
    ensures { (old new : Fact) (post : Post) (missing : Missing) → IsRisenVector post.vector
        → AreEvenValues post.vector (places_of old.positions)
        → list_all (λ p. has_its_sort p.sort p.equation) old.positions ≡ true
        → IsEvenFact old → entails post old ≡ Done missing → join old post missing ≡ Done new → IsEvenFact new }
{}

/// The equations of the start fact and of a rebase rise, a join keeps what rises, and the vector of a fact that rises does.
pub fn facts_rise()
    ensures start { (ps : List Position) → IsRisenFact (start_fact ps) }
    ensures rebase { (post : Post) (ps : List Position) (f : Fact) → rebase post ps ≡ Done f → IsRisenFact f }
    ensures join { (old new : Fact) (post : Post) (missing : Missing) → IsRisenFact old → join old post missing ≡ Done new
        → IsRisenFact new }
    ensures vector { (f : Fact) → IsRisenFact f → IsRisenVector (vector_of f.positions) }
{}
