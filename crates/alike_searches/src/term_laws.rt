//! Laws of terms. The functions do nothing.

ghost use Rattle.std.specs.Prelude.{◌≡◌, true, ℤ, List, Option};
ghost use Rattle.fs_model.specs.declared.parts.Rel.{Rel};
ghost use Rattle.fs_model.specs.Trees.{opposite};
ghost use Rattle.fs_model.specs.Machines.{Fsmd};
ghost use Rattle.fs_cut.specs.Paths.{Path};
ghost use Rattle.nf_trees.specs.NormalTerms.{Polynomial, ArrayTerm, Zero, polynomial_of_symbol};
ghost use Rattle.nf_terms.specs.Computed.{Done};
ghost use Rattle.fs_model.specs.declared.sides.Pos.{Pos};
ghost use Rattle.nf_terms.specs.declared.form.Nf.{Nf};
ghost use Rattle.nf_sums.specs.Operations.{normal_sum, normal_difference, normal_product, normal_negation, number};
ghost use Rattle.nf_arrays.specs.NewAtoms.{quotient_of, remainder_of};
ghost use Rattle.nf_arrays.specs.Writes.{write_array, read_at};
ghost use Rattle.nf_substitution.specs.Vectors.{number_at};
ghost use Rattle.nf_substitution.specs.Substitution.{polynomial_substituted, array_substituted};
ghost use Rattle.nf_rel.specs.Literals.{NormalLiteral, literal, clash};
ghost use Rattle.sym_paths.specs.Execution.{Post, arrive};
ghost use Rattle.alike_searches.specs.Risen.{is_risen, is_risen_array, IsRisenVector};

/// The literals of a relation and of its opposite between the same terms clash, whatever the terms are.
pub fn opposite_literals_clash()
    ensures { (relation : Rel) (p q : Polynomial) (l m : NormalLiteral) → literal relation p q ≡ Done l
        → literal (opposite relation) p q ≡ Done m → clash l m ≡ true }
{}

/// What an operation gives rises, whatever its operands are; a negation, a read and a write keep what rises.
pub fn operations_rise()
    ensures number { (c : ℤ) (r : Polynomial) → number c ≡ Done r → is_risen r ≡ true }
    ensures sum { (p q r : Polynomial) → normal_sum p q ≡ Done r → is_risen r ≡ true }
    ensures difference { (p q r : Polynomial) → normal_difference p q ≡ Done r → is_risen r ≡ true }
    ensures product { (p q r : Polynomial) → normal_product p q ≡ Done r → is_risen r ≡ true }
    ensures quotient { (p q r : Polynomial) → quotient_of p q ≡ Done r → is_risen r ≡ true }
    ensures remainder { (p q r : Polynomial) → remainder_of p q ≡ Done r → is_risen r ≡ true }
    ensures negation { (p : Polynomial) → is_risen p ≡ true → is_risen (normal_negation p) ≡ true }
    ensures read { (a : ArrayTerm) (i r : Polynomial) → is_risen_array a ≡ true → read_at a i ≡ Done r → is_risen r ≡ true }
    ensures write { (a b : ArrayTerm) (i v : Polynomial) → is_risen_array a ≡ true → is_risen v ≡ true
        → write_array a i v ≡ Done b → is_risen_array b ≡ true }
{}

/// What a substitution gives rises, and where the numbers of a vector rise, so do those that arrive.
pub fn vectors_rise()
    ensures number { (v : List (Pos × Nf)) (p r : Polynomial) → polynomial_substituted v p ≡ Done r → is_risen r ≡ true }
    ensures array { (v : List (Pos × Nf)) (a b : ArrayTerm) → IsRisenVector v → array_substituted v a ≡ Done b
        → is_risen_array b ≡ true }
    ensures arrival { (a b : Fsmd) (ls : List NormalLiteral) (v : List (Pos × Nf)) (left right : Option Path) (post : Post)
        → IsRisenVector v → arrive a b ls v left right ≡ Done post → IsRisenVector post.vector }
{}

/// A term less itself is 0, and a symbol that is substituted gives the number that the vector has for it.
pub fn terms_cancel()
    ensures difference { (t r : Polynomial) → normal_difference t t ≡ Done r → r ≡ Zero }
    ensures symbol { (v : List (Pos × Nf)) (p : Pos) (r : Polynomial) → is_risen (number_at v p) ≡ true
        → polynomial_substituted v (polynomial_of_symbol p) ≡ Done r → r ≡ number_at v p }
{}
