//! Laws of arrays and of division. The functions do nothing.

ghost use Rattle.std.specs.Prelude.{◌≡◌, ◌++◌, ◌∷◌, [], ℤ};
ghost use Rattle.base_laws.specs.Division.{quotient, remainder};
ghost use Rattle.nf_trees.specs.NormalTerms.{Polynomial, ArrayTerm};
ghost use Rattle.nf_terms.specs.TermMeaning.{Valuation, value_of, contents, items_in, contents_after_write as stored};
ghost use Rattle.nf_terms.specs.Lists.{ListTerm};
ghost use Rattle.nf_terms.specs.Normal.{IsNormalArray};
ghost use Rattle.nf_terms.specs.Computed.{Done};
ghost use Rattle.nf_terms.specs.Tidied.{tidy_array};
ghost use Rattle.nf_arrays.specs.NewAtoms.{quotient_of, remainder_of};
ghost use Rattle.nf_arrays.specs.Pushes.{list_with_item};
ghost use Rattle.nf_arrays.specs.Writes.{read_at, write_array};

/// A law, with nothing to run: McCarthy's two equations hold of what an array holds after a write.
pub fn mccarthys_equations_hold()
    ensures here { (f : ℤ → ℤ) (i v : ℤ) → stored f i v i ≡ v }
    ensures elsewhere { (f : ℤ → ℤ) (i j v : ℤ) → ¬ (i ≡ j) → stored f i v j ≡ f j }
{}

/// A law, with nothing to run: a read is what the array holds at the index, and a write is the array with the value there.
pub fn reads_and_writes_keep_the_meaning()
    ensures read { (w : Valuation) (a : ArrayTerm) (i r : Polynomial) → read_at a i ≡ Done r
        → value_of w r ≡ contents w a (value_of w i) }
    ensures write { (w : Valuation) (a b : ArrayTerm) (i v : Polynomial) → write_array a i v ≡ Done b
        → contents w b ≡ stored (contents w a) (value_of w i) (value_of w v) }
{}

/// A law, with nothing to run: a tidied array holds what the array holds.
pub fn tidied_arrays_keep_the_meaning()
    ensures { (w : Valuation) (a : ArrayTerm) → contents w (tidy_array a) ≡ contents w a }
{}

/// A law, with nothing to run: quotients and remainders are those of the values.
pub fn divisions_keep_the_meaning()
    ensures quotient { (w : Valuation) (p q r : Polynomial) → quotient_of p q ≡ Done r
        → value_of w r ≡ quotient (value_of w p) (value_of w q) }
    ensures remainder { (w : Valuation) (p q r : Polynomial) → remainder_of p q ≡ Done r
        → value_of w r ≡ remainder (value_of w p) (value_of w q) }
{}

/// A law, with nothing to run: a normal array is its own tidied form, so that normal arrays with the same tidied form are equal.
pub fn normal_arrays_are_unique()
    ensures tidied { (a : ArrayTerm) → IsNormalArray a → tidy_array a ≡ a }
    ensures equal { (a b : ArrayTerm) → IsNormalArray a → IsNormalArray b → tidy_array a ≡ tidy_array b → a ≡ b }
{}

/// A law, with nothing to run: a push is the list with the value behind.
pub fn pushes_keep_the_meaning()
    ensures { (w : Valuation) (l m : ListTerm) (p : Polynomial) → list_with_item l p ≡ Done m
        → items_in w m ≡ items_in w l ++ value_of w p ∷ [] }
{}
