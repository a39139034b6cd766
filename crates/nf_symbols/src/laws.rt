//! Laws of symbols. The functions do nothing.

ghost use Rattle.std.specs.Prelude.{◌≡◌, true, not, Bool, List};
ghost use Rattle.std.specs.List.{list_all};
ghost use Rattle.nf_trees.specs.NormalTerms.{Polynomial, ArrayTerm};
ghost use Rattle.nf_terms.specs.Lists.{ListTerm, mentions_list};
ghost use Rattle.nf_terms.specs.TermMeaning.{Valuation, value_of, contents, items_in};
ghost use Rattle.nf_terms.specs.Symbols.{symbols_of, symbols_of_array, symbols_of_list, symbols_of_form};
ghost use Rattle.nf_trees.specs.Mentions.{mentions, mentions_array};
ghost use Rattle.nf_terms.specs.ValuationAgreement.{AgreeOn};
ghost use Rattle.nf_terms.specs.Forms.{mentions_form};
ghost use Rattle.nf_terms.specs.Computed.{Done};
ghost use Rattle.nf_terms.specs.declared.symbols.Sort.{Sort};
ghost use Rattle.fs_model.specs.declared.sides.Pos.{Pos};
ghost use Rattle.nf_terms.specs.declared.form.Nf.{Nf};
ghost use Rattle.nf_sums.specs.Operations.{normal_sum, normal_difference, normal_product};
ghost use Rattle.nf_substitution.specs.Substitution.{polynomial_substituted, array_substituted, list_substituted};
ghost use Rattle.nf_symbols.specs.SymbolTests.{AgreeAt, LeadsTo, is_other};

/// What a term means depends on the symbols that it mentions, and on no others.
#[tactic(auto, using(nf_terms::proofs::Agreement::agreements))]
pub fn mentioned_symbols_decide()
    ensures numbers { (v w : Valuation) (p : Polynomial) → AgreeOn (λ q. mentions q p) v w → value_of v p ≡ value_of w p }
    ensures arrays { (v w : Valuation) (a : ArrayTerm) → AgreeOn (λ q. mentions_array q a) v w → contents v a ≡ contents w a }
    ensures lists { (v w : Valuation) (l : ListTerm) → AgreeOn (λ q. mentions_list q l) v w → items_in v l ≡ items_in w l }
{}

/// What a term means depends on its symbols, each as it is used, and on no others.
pub fn symbols_decide_the_meaning()
    ensures numbers { (test : Pos × Sort → Bool) (v w : Valuation) (p : Polynomial) → AgreeAt test v w
        → list_all test (symbols_of p) ≡ true → value_of v p ≡ value_of w p }
    ensures arrays { (test : Pos × Sort → Bool) (v w : Valuation) (a : ArrayTerm) → AgreeAt test v w
        → list_all test (symbols_of_array a) ≡ true → contents v a ≡ contents w a }
    ensures lists { (test : Pos × Sort → Bool) (v w : Valuation) (l : ListTerm) → AgreeAt test v w
        → list_all test (symbols_of_list l) ≡ true → items_in v l ≡ items_in w l }
{}

/// Sums, differences and products have no other symbols than their operands.
pub fn operations_add_no_symbols()
    ensures sum { (test : Pos × Sort → Bool) (p q r : Polynomial) → list_all test (symbols_of p) ≡ true
        → list_all test (symbols_of q) ≡ true → normal_sum p q ≡ Done r → list_all test (symbols_of r) ≡ true }
    ensures difference { (test : Pos × Sort → Bool) (p q r : Polynomial) → list_all test (symbols_of p) ≡ true
        → list_all test (symbols_of q) ≡ true → normal_difference p q ≡ Done r → list_all test (symbols_of r) ≡ true }
    ensures product { (test : Pos × Sort → Bool) (p q r : Polynomial) → list_all test (symbols_of p) ≡ true
        → list_all test (symbols_of q) ≡ true → normal_product p q ≡ Done r → list_all test (symbols_of r) ≡ true }
{}

/// A substituted term has no other symbols than those that the vector's forms have at the term's symbols.
pub fn substitution_leads_to_the_vectors_symbols()
    ensures numbers { (from to : Pos × Sort → Bool) (v : List (Pos × Nf)) (p r : Polynomial) → LeadsTo from to v
        → list_all from (symbols_of p) ≡ true → polynomial_substituted v p ≡ Done r → list_all to (symbols_of r) ≡ true }
    ensures arrays { (from to : Pos × Sort → Bool) (v : List (Pos × Nf)) (a b : ArrayTerm) → LeadsTo from to v
        → list_all from (symbols_of_array a) ≡ true → array_substituted v a ≡ Done b → list_all to (symbols_of_array b) ≡ true }
    ensures lists { (from to : Pos × Sort → Bool) (v : List (Pos × Nf)) (l m : ListTerm) → LeadsTo from to v
        → list_all from (symbols_of_list l) ≡ true → list_substituted v l ≡ Done m → list_all to (symbols_of_list m) ≡ true }
{}

/// A position is mentioned exactly where it is among the symbols.
#[tactic(auto, using(crate::proofs::Mentioned::form_other))]
pub fn mentioned_positions_are_symbols()
    ensures { (p : Pos) (f : Nf) → not (mentions_form p f) ≡ list_all (is_other p) (symbols_of_form f) }
{}
