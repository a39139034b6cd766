//! Laws of terms and of sums. The functions do nothing.

ghost use Rattle.std.specs.Prelude.{◌≡◌, ℤ, ◌+ℤ◌, ◌-ℤ◌, ◌*ℤ◌, neg_ℤ};
ghost use Rattle.std.specs.declared.cmp.Ordering.TheVariants.{Equal};
ghost use Rattle.std.specs.Cmp.{IsTotalOrder};
ghost use Rattle.nf_trees.specs.NormalTerms.{Atom as AtomTerm, Monomial, Polynomial, ArrayTerm, Writes, Over};
ghost use Rattle.nf_trees.specs.NormalTerms.{polynomial_of_number};
ghost use Rattle.nf_trees.specs.Order.{cmp_atom, cmp_monomial, cmp_polynomial, cmp_array};
ghost use Rattle.nf_terms.specs.Computed.{IfDone};
ghost use Rattle.nf_terms.specs.TermMeaning.{Valuation, value_of};
ghost use Rattle.nf_terms.specs.Means.{IsNumberOf};
ghost use Rattle.nf_terms.specs.Lists.{ListTerm, IsNormalList, cmp_list};
ghost use Rattle.nf_terms.specs.Normal.{IsNormal, IsNormalArray, part_with_atoms, constant_part};
ghost use Rattle.nf_terms.specs.TermParts.{HasNormalParts, MonomialsHaveNormalParts, WritesAreNormal};
ghost use Rattle.nf_terms.specs.RawSums.{raw_sum, raw_difference, raw_product, raw_negation};
ghost use Rattle.nf_terms.specs.Reduced.{Reduces};
ghost use Rattle.nf_trees.specs.declared.tree.Base.{Base as ArrayBase};
ghost use Rattle.nf_sums.specs.RawSumForms.{normal_form};
ghost use Rattle.nf_sums.specs.Sameness.{settled, settled_atom, IsFormOf, SameSum, SameArray, SameAtom, SameList};
ghost use Rattle.nf_sums.specs.Operations.{normal_sum, normal_difference, normal_product, normal_negation, number};

/// The orders of terms are total.
#[tactic(auto, using(crate::proofs::Orders::totals))]
pub fn orders_are_total()
    ensures atoms { IsTotalOrder cmp_atom }
    ensures monomials { IsTotalOrder cmp_monomial }
    ensures polynomials { IsTotalOrder cmp_polynomial }
    ensures arrays { IsTotalOrder cmp_array }
    ensures lists { IsTotalOrder cmp_list }
{}

/// Terms that tie are equal.
#[tactic(auto, using(crate::proofs::Orders::ties))]
pub fn terms_that_tie_are_equal()
    ensures atoms { (a b : AtomTerm) → cmp_atom a b ≡ Equal → a ≡ b }
    ensures monomials { (m n : Monomial) → cmp_monomial m n ≡ Equal → m ≡ n }
    ensures polynomials { (p q : Polynomial) → cmp_polynomial p q ≡ Equal → p ≡ q }
    ensures arrays { (a b : ArrayTerm) → cmp_array a b ≡ Equal → a ≡ b }
    ensures lists { (l m : ListTerm) → cmp_list l m ≡ Equal → l ≡ m }
{}

/// The parts of a normal term are normal.
#[tactic(auto, using(crate::proofs::NormalParts::normal_parts))]
pub fn parts_are_normal()
    ensures polynomials { (p : Polynomial) → IsNormal p → MonomialsHaveNormalParts p }
    ensures arrays { (b : ArrayBase) (ws : Writes) → IsNormalArray (Over b ws) → WritesAreNormal ws }
{}

/// A normal sum is its part with atoms and its constant.
#[tactic(auto, using(crate::proofs::Partings::partings))]
pub fn sums_have_a_constant_part()
    ensures terms { (p : Polynomial) → IsNormal p → p ≡ raw_sum (part_with_atoms p) (polynomial_of_number (constant_part p)) }
    ensures values { (w : Valuation) (p : Polynomial) → IsNormal p
        → value_of w p ≡ value_of w (part_with_atoms p) +ℤ constant_part p }
{}

/// A normal sum with fewer monomials, or with other coefficients that are not 0 and no larger, is normal.
#[tactic(auto, using(crate::proofs::Reducing::reductions))]
pub fn reduced_sums_are_normal()
    ensures { (p q : Polynomial) → IsNormal p → Reduces p q → IsNormal q }
{}

/// Normal forms that are the same are equal.
#[tactic(auto, using(crate::proofs::Settling::equal_forms))]
pub fn normal_forms_are_unique()
    ensures sums { (p q : Polynomial) → IsNormal p → IsNormal q → SameSum p q → p ≡ q }
    ensures atoms { (a b : AtomTerm) → HasNormalParts a → HasNormalParts b → SameAtom a b → a ≡ b }
    ensures arrays { (a b : ArrayTerm) → IsNormalArray a → IsNormalArray b → SameArray a b → a ≡ b }
    ensures lists { (l m : ListTerm) → IsNormalList l → IsNormalList m → SameList l m → l ≡ m }
{}

/// Atoms are the same exactly where they settle alike, and sums exactly where their settled forms have one normal form:
/// so bags of atoms that settle alike are bags of atoms that are the same.
#[tactic(auto, using(crate::proofs::Rising::settling))]
pub fn same_terms_settle_alike()
    ensures atoms { (a b : AtomTerm) → SameAtom a b → settled_atom a ≡ settled_atom b }
    ensures same_atoms { (a b : AtomTerm) → settled_atom a ≡ settled_atom b → SameAtom a b }
    ensures sums { (p q : Polynomial) → SameSum p q → normal_form (settled p) ≡ normal_form (settled q) }
    ensures same_sums { (p q : Polynomial) → normal_form (settled p) ≡ normal_form (settled q) → SameSum p q }
{}

/// What the operations give is normal, and the same as the raw sum.
#[tactic(auto, using(crate::proofs::Given::given))]
pub fn operations_give_normal_forms()
    ensures sum { (p q : Polynomial) → IsNormal p → IsNormal q → IfDone (normal_sum p q) (λ s. IsFormOf s (raw_sum p q)) }
    ensures difference { (p q : Polynomial) → IsNormal p → IsNormal q
        → IfDone (normal_difference p q) (λ s. IsFormOf s (raw_difference p q)) }
    ensures product { (p q : Polynomial) → IsNormal p → IsNormal q
        → IfDone (normal_product p q) (λ s. IsFormOf s (raw_product p q)) }
    ensures negation { (p : Polynomial) → IsNormal p → IsFormOf (normal_negation p) (raw_negation p) }
{}

/// What the operations give means what was asked, in every pair of stores.
#[tactic(auto, using(crate::proofs::Exact::meanings))]
pub fn operations_keep_the_meaning()
    ensures sum { (p q : Polynomial) → IsNormal p → IsNormal q
        → IfDone (normal_sum p q) (IsNumberOf (λ w. value_of w p +ℤ value_of w q)) }
    ensures difference { (p q : Polynomial) → IsNormal p → IsNormal q
        → IfDone (normal_difference p q) (IsNumberOf (λ w. value_of w p -ℤ value_of w q)) }
    ensures product { (p q : Polynomial) → IsNormal p → IsNormal q
        → IfDone (normal_product p q) (IsNumberOf (λ w. value_of w p *ℤ value_of w q)) }
    ensures negation { (p : Polynomial) → IsNormal p → IsNumberOf (λ w. neg_ℤ (value_of w p)) (normal_negation p) }
    ensures number { (c : ℤ) → IfDone (number c) (IsNumberOf (λ w. c)) }
{}
