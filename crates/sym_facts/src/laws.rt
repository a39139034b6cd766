//! Laws of facts, over the definitions alone. The functions do nothing.

ghost use Rattle.std.specs.Prelude.{◌≡◌, ℕ, Bool, IsTrue, true, List, [], Option, None};
ghost use Rattle.std.specs.List.{list_all};
ghost use Rattle.fs_model.specs.SoundMachines.{IsSound};
ghost use Rattle.fs_model.specs.Machines.{Fsmd};
ghost use Rattle.fs_model.specs.Runs.{Inputs, start};
ghost use Rattle.sym_paths.specs.Paths.{Path, BranchStep, branch_at};
ghost use Rattle.fs_pair.specs.Interfaces.{interface_fault};
ghost use Rattle.fs_pair.specs.Positions.{positions};
ghost use Rattle.nf_terms.specs.TermMeaning.{Valuation};
ghost use Rattle.nf_terms.specs.Computed.{Done};
ghost use Rattle.nf_terms.specs.declared.symbols.Sort.{Sort as TermSort};
ghost use Rattle.fs_model.specs.declared.sides.Pos.{Pos as PlainPos};
ghost use Rattle.fs_model.specs.declared.sides.Side.{Side};
ghost use Rattle.nf_terms.specs.declared.form.Nf.{Nf as PlainForm};
ghost use Rattle.nf_symbols.specs.Vectors.{vector_meaning};
ghost use Rattle.nf_symbols.specs.SymbolTests.{LeadsTo};
ghost use Rattle.nf_rel.specs.Literals.{NormalLiteral, all_true_in};
ghost use Rattle.sym_paths.specs.ValuationStores.{choose_side};
ghost use Rattle.sym_paths.specs.Evaluation.{act_over};
ghost use Rattle.sym_paths.specs.Execution.{Post, steps_over, arrive};
ghost use Rattle.sym_facts.specs.Facts.{FactPosition as PlainPosition, Fact as PlainFact, vector_of, EquationsHold, HoldsIn};
ghost use Rattle.sym_facts.specs.Facts.{Holds, IsFact};
ghost use Rattle.sym_facts.specs.Entailment.{form_substituted, literal_substituted, entails, Missing};
ghost use Rattle.sym_facts.specs.Pairings.{is_position, form_within, literal_within, IsVectorOf, IsPostOf, IsFactOf};
ghost use Rattle.sym_facts.specs.Starts.{start_fact};

/// Where all equations hold, the vector of a fact means the pair of stores itself. A fact that a post entails holds of the stores
/// that the post's vector means.
pub fn facts_mean_their_vectors()
    ensures vector { (w : Valuation) (ps : List PlainPosition) → EquationsHold w ps → vector_meaning (vector_of ps) w ≡ w }
    ensures entailed { (w : Valuation) (post : Post) (f : PlainFact) (e : Missing) → entails post f ≡ Done e → e.equations ≡ []
        → e.literals ≡ [] → all_true_in w post.conditions ≡ true → HoldsIn (vector_meaning post.vector w) f }
{}

/// The start fact holds of the two start stores of every input.
pub fn the_start_fact_holds()
    ensures { (a b : Fsmd) → IsSound a → interface_fault a b ≡ None → (inputs : Inputs)
        → Holds (start_fact (positions a b)) (start a inputs) (start b inputs) }
{}

/// The start fact is solved, and of its pairing.
pub fn the_start_fact_is_solved()
    ensures solved { (a b : Fsmd) → IsSound a → interface_fault a b ≡ None → IsFact (start_fact (positions a b)) }
    ensures pairing { (a b : Fsmd) → IsFactOf (positions a b) (start_fact (positions a b)) }
{}

/// What two sound machines do over a vector of their pairing leaves one of the pairing, and what arrives by their paths is of the
/// pairing.
pub fn paths_keep_to_the_pairing()
    ensures assignments { (a b : Fsmd) (side : Side) (state branch : ℕ) (v u : List (PlainPos × PlainForm)) → IsSound a
        → IsSound b → IsVectorOf (positions a b) v
        → act_over side (branch_at (choose_side side a b) state branch).assignments v ≡ Done u → IsVectorOf (positions a b) u }
    ensures steps { (a b : Fsmd) (side : Side) (steps : List BranchStep) (v u : List (PlainPos × PlainForm)) → IsSound a
        → IsSound b → IsVectorOf (positions a b) v → steps_over (choose_side side a b) side steps v ≡ Done u
        → IsVectorOf (positions a b) u }
    ensures arrivals { (a b : Fsmd) (ls : List NormalLiteral) (v : List (PlainPos × PlainForm)) (left right : Option Path)
        (post : Post) → IsSound a → IsSound b → IsVectorOf (positions a b) v
        → IsTrue (list_all (literal_within (is_position (positions a b))) ls)
        → arrive a b ls v left right ≡ Done post → IsPostOf (positions a b) post }
{}

/// Where a vector leads from some symbols to others, a form and a literal of the ones are, substituted, of the others. A vector
/// whose forms are of some symbols leads from these to these.
pub fn substitution_leads_to_symbols()
    ensures forms { (from to : PlainPos × TermSort → Bool) (v : List (PlainPos × PlainForm)) (f g : PlainForm) → LeadsTo from to v
        → IsTrue (form_within from f) → form_substituted v f ≡ Done g → IsTrue (form_within to g) }
    ensures literals { (from to : PlainPos × TermSort → Bool) (v : List (PlainPos × PlainForm)) (l m : NormalLiteral)
        → LeadsTo from to v → IsTrue (literal_within from l) → literal_substituted v l ≡ Done m → IsTrue (literal_within to m) }
    ensures vectors { (test : PlainPos × TermSort → Bool) (v : List (PlainPos × PlainForm))
        → IsTrue (list_all (λ e. form_within test e.1) v) → LeadsTo test test v }
{}
