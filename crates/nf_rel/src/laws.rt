//! Laws of literals. The functions do nothing.

ghost use Rattle.std.specs.Prelude.{◌≡◌, ℕ, ℤ, not, ◌&&◌, ◌||◌, true, false, List, Some};
ghost use Rattle.std.specs.List.{list_any, slice_get};
ghost use Rattle.std.specs.Option.{is_some};
ghost use Rattle.fs_model.specs.declared.parts.Rel.{Rel};
ghost use Rattle.fs_model.specs.Meaning.{relates};
ghost use Rattle.nf_trees.specs.NormalTerms.{Polynomial};
ghost use Rattle.nf_terms.specs.TermMeaning.{Valuation, value_of};
ghost use Rattle.nf_terms.specs.Computed.{Done};
ghost use Rattle.nf_terms.specs.Normal.{IsNormal};
ghost use Rattle.nf_rel.specs.declared.kind.Kind.{Kind};
ghost use Rattle.nf_rel.specs.Bounds.{clashing_from};
ghost use Rattle.nf_rel.specs.NormalLiterals.{IsNormalLiteral, direction_of, same_literal};
ghost use Rattle.nf_rel.specs.Literals.{NormalLiteral, Is, meets, is_true_in, all_true_in, literal, negate, clash, clashes_with};
ghost use Rattle.nf_rel.specs.Literals.{bounds_clash, is_false, meets_along, meets_all, is_refuted_along, is_refuted_at};
ghost use Rattle.nf_rel.specs.Literals.{is_refuted, is_implied};

/// A literal is true exactly where its relation holds.
pub fn a_literal_means_its_relation()
    ensures { (relation : Rel) (l r : Polynomial) (n : NormalLiteral) (w : Valuation) → literal relation l r ≡ Done n
        → is_true_in w n ≡ relates relation (value_of w l) (value_of w r) }
{}

/// What negation, clashes and implication mean.
pub fn literals_keep_truth()
    ensures negate { (w : Valuation) (l : NormalLiteral) → is_true_in w (negate l) ≡ not (is_true_in w l) }
    ensures clash { (w : Valuation) (l m : NormalLiteral) → clash l m ≡ true → is_true_in w l ≡ true → is_true_in w m ≡ false }
    ensures refuted { (w : Valuation) (ls : List NormalLiteral) → is_refuted ls ≡ true → all_true_in w ls ≡ false }
    ensures implied { (w : Valuation) (ls : List NormalLiteral) (l : NormalLiteral) → is_implied ls l ≡ true
        → all_true_in w ls ≡ true → is_true_in w l ≡ true }
{}

/// The literal of normal polynomials is in normal form.
pub fn literals_are_in_normal_form()
    ensures literal { (relation : Rel) (l r : Polynomial) (n : NormalLiteral) → IsNormal l → IsNormal r
        → literal relation l r ≡ Done n → IsNormalLiteral n }
    ensures direction { (d : Polynomial) (k : Kind) (b : ℤ) → IsNormalLiteral (Is d k b) → IsNormal d }
{}

/// Negation keeps the direction, and done twice it changes nothing.
pub fn negation_keeps_the_direction()
    ensures direction { (l : NormalLiteral) → direction_of (negate l) ≡ direction_of l }
    ensures again { (l : NormalLiteral) → negate (negate l) ≡ l }
{}

/// Literals are the same exactly where they are equal.
pub fn literals_that_are_the_same_are_equal()
    ensures equal { (l m : NormalLiteral) → same_literal l m ≡ true → l ≡ m }
    ensures same { (l : NormalLiteral) → same_literal l l ≡ true }
{}

/// Clashes are exact.
///
/// Two bounds clash exactly where no integer meets both, and so do two literals of one direction. False clashes with each
/// literal; two others that clash have one direction.
pub fn clashes_are_exact()
    ensures none_meets { (k : Kind) (a : ℤ) (j : Kind) (b : ℤ) → bounds_clash k a j b ≡ true → (v : ℤ)
        → meets k v a && meets j v b ≡ false }
    ensures where_none_meets { (k : Kind) (a : ℤ) (j : Kind) (b : ℤ) → ((v : ℤ) → meets k v a && meets j v b ≡ false)
        → bounds_clash k a j b ≡ true }
    ensures none_along { (d : Polynomial) (l m : NormalLiteral) → direction_of l ≡ Some d → direction_of m ≡ Some d
        → clash l m ≡ true → (v : ℤ) → meets_along d v l && meets_along d v m ≡ false }
    ensures where_none_along { (d : Polynomial) (l m : NormalLiteral) → direction_of l ≡ Some d → direction_of m ≡ Some d
        → ((v : ℤ) → meets_along d v l && meets_along d v m ≡ false) → clash l m ≡ true }
    ensures where_false { (l m : NormalLiteral) → is_false l || is_false m ≡ true → clash l m ≡ true }
    ensures direction { (l m : NormalLiteral) → clash l m ≡ true → is_false l || is_false m ≡ false
        → direction_of l ≡ direction_of m }
{}

/// What clashes is refuted, and implied where it is the negation that clashes.
pub fn what_clashes_is_refuted()
    ensures least { (ls : List NormalLiteral) → is_some (clashing_from 0 ls) ≡ true → is_refuted ls ≡ true }
    ensures places { (ls : List NormalLiteral) (i j : ℕ) (l m : NormalLiteral) → slice_get ls i ≡ Some l → slice_get ls j ≡ Some m
        → clash l m ≡ true → is_refuted ls ≡ true }
    ensures implied { (ls : List NormalLiteral) (l : NormalLiteral) → clashes_with ls (negate l) ≡ true → is_implied ls l ≡ true }
{}

/// Refutation and implication are exact by direction.
///
/// A direction is refuted exactly where no integer meets all its literals. A list is refuted exactly where it has a False
/// or one of its directions is refuted. A bound is implied where the list has a False; otherwise exactly where each integer
/// that meets all literals of its direction meets it.
pub fn refutation_is_exact_by_direction()
    ensures none_meets { (d : Polynomial) (ls : List NormalLiteral) → is_refuted_along d ls ≡ true → (v : ℤ)
        → meets_all d v ls ≡ false }
    ensures where_none_meets { (d : Polynomial) (ls : List NormalLiteral) → ((v : ℤ) → meets_all d v ls ≡ false)
        → is_refuted_along d ls ≡ true }
    ensures refuted { (ls : List NormalLiteral) → is_refuted ls ≡ list_any (is_refuted_at ls) ls }
    ensures some_direction { (d : Polynomial) (ls : List NormalLiteral) → is_refuted_along d ls ≡ true → is_refuted ls ≡ true }
    ensures each_meets { (ls : List NormalLiteral) (d : Polynomial) (k : Kind) (b : ℤ) → list_any is_false ls ≡ false
        → is_implied ls (Is d k b) ≡ true → (v : ℤ) → meets_all d v ls ≡ true → meets k v b ≡ true }
    ensures where_each_meets { (ls : List NormalLiteral) (d : Polynomial) (k : Kind) (b : ℤ)
        → ((v : ℤ) → meets_all d v ls ≡ true → meets k v b ≡ true) → is_implied ls (Is d k b) ≡ true }
    ensures where_false { (ls : List NormalLiteral) (l : NormalLiteral) → list_any is_false ls ≡ true → is_implied ls l ≡ true }
{}
