//! Laws of substitution. The functions do nothing.

ghost use Rattle.std.specs.Prelude.{◌≡◌, List};
ghost use Rattle.nf_trees.specs.NormalTerms.{Polynomial, ArrayTerm};
ghost use Rattle.nf_terms.specs.Lists.{ListTerm};
ghost use Rattle.nf_terms.specs.TermMeaning.{Valuation, value_of, contents, items_in};
ghost use Rattle.nf_terms.specs.Computed.{Done};
ghost use Rattle.fs_model.specs.declared.sides.Pos.{Pos as Position};
ghost use Rattle.nf_terms.specs.declared.form.Nf.{Nf as Form};
ghost use Rattle.nf_vectors.specs.Vectors.{vector_meaning};
ghost use Rattle.nf_substitution.specs.Substitution.{polynomial_substituted, array_substituted, list_substituted};

/// A law, with nothing to run: a substituted term means what the term means in the pair of stores that the vector means.
pub fn substitution_keeps_the_meaning()
    ensures numbers { (w : Valuation) (v : List (Position × Form)) (p r : Polynomial) → polynomial_substituted v p ≡ Done r
        → value_of w r ≡ value_of (vector_meaning v w) p }
    ensures arrays { (w : Valuation) (v : List (Position × Form)) (a b : ArrayTerm) → array_substituted v a ≡ Done b
        → contents w b ≡ contents (vector_meaning v w) a }
    ensures lists { (w : Valuation) (v : List (Position × Form)) (l m : ListTerm) → list_substituted v l ≡ Done m
        → items_in w m ≡ items_in (vector_meaning v w) l }
{}
