//! Normal polynomials.

ghost use Rattle.std.specs.Prelude.{◌≡◌, ◌≢◌, ◌^◌, pos, neg_ℤ, map, IfOk, MatchOption};
ghost use Rattle.nf_trees.specs.NormalTerms.{polynomial_of, polynomial_of_symbol, polynomial_of_number};
ghost use Rattle.nf_trees.specs.View.{polynomial_in, term_in};
ghost use Rattle.nf_trees.specs.Measures.{size_of, depth_of, weight_of};
ghost use Rattle.nf_trees.specs.Mentions.{mentions as mentions_of};
ghost use Rattle.nf_terms.specs.Normal.{IsNormal};

use crate::normal::is_normal_poly;
use crate::stop::NoMemory;
use crate::tree::{Atom, MonoTree, PolyTree, Pos};
use nf_trees::measures::{depth_of_poly, size_of_poly, weight_of_poly};
use nf_trees::mentions::poly_mentions;
use nf_trees::order::compare_polys;
use std::alloc::Global;
use std::cmp::Ordering;
use std::marker::Model;

/// A polynomial that is normal in all its parts and within the limits of size, depth and weight.
#[derive(Drop)]
pub struct Poly {
    tree: PolyTree,
}

impl Model for Poly {
    ghost use Rattle.nf_trees.specs.NormalTerms.{Polynomial};
    ghost use Rattle.nf_terms.specs.Codes.{coded_polynomial};
    ghost use Rattle.nf_trees.specs.View.{polynomial_in};
    ghost use Rattle.nf_terms.specs.Normal.{IsNormal};

    ghost Value = { Polynomial };

    ghost coded = { coded_polynomial };

    ghost view = { λ p. polynomial_in p.tree };

    ghost invariant = { λ p. IsNormal (polynomial_in p.tree) };
}

impl Poly {
    /// The polynomial of a tree.
    ///
    /// `None` comes exactly where the tree or a part of it is not normal or is past a limit.
    pub fn of(tree: PolyTree) -> Option<Poly>
        ensures { MatchOption result (¬ IsNormal (polynomial_in tree)) (λ p. p ≡ polynomial_in tree) }
    {
        if is_normal_poly(&tree) {
            Some(Poly { tree })
        } else {
            None
        }
    }

    /// The polynomial of a tree that is known to be normal: it is not looked at.
    pub fn from_normal(tree: PolyTree) -> Poly
        requires { IsNormal (polynomial_in tree) }
        ensures { result ≡ polynomial_in tree }
    {
        Poly { tree }
    }

    /// The polynomial of a symbol alone. The one refusal is out of memory.
    #[tactic(auto, using(crate::proofs::Simple::simple))]
    pub fn symbol(alloc: Global, p: Pos) -> Result<Poly, NoMemory>
        ensures { IfOk result (λ s. s ≡ polynomial_of_symbol p) }
    {
        Ok(Poly {
            tree: symbol_tree(alloc, p)?,
        })
    }

    /// The polynomial of a number alone, which is not the least `i128`. The one refusal is out of memory.
    #[tactic(auto, using(crate::proofs::Simple::simple))]
    pub fn number(alloc: Global, c: i128) -> Result<Poly, NoMemory>
        requires { c ≢ neg_ℤ (pos (2 ^ 127)) }
        ensures { IfOk result (λ n. n ≡ polynomial_of_number c) }
    {
        Ok(Poly {
            tree: number_tree(alloc, c)?,
        })
    }

    /// The tree.
    pub fn tree(&self) -> &PolyTree
        ensures same { polynomial_in result.now ≡ self.now }
        ensures normal { IsNormal self.now }
    {
        &self.tree
    }

    /// The tree, taken out.
    pub fn into_tree(self) -> PolyTree
        ensures same { polynomial_in result ≡ self }
        ensures normal { IsNormal self }
    {
        self.tree
    }

    /// The monomials with their coefficients, in order.
    pub fn monos(&self) -> &[(MonoTree, i128)]
        ensures same { polynomial_of (map term_in result.now) ≡ self.now }
        ensures normal { IsNormal self.now }
    {
        &self.tree.monos
    }

    /// A copy. The one refusal is out of memory.
    pub fn try_clone(&self, alloc: Global) -> Result<Poly, NoMemory>
        ensures { IfOk result (λ copy. copy ≡ self.now) }
    {
        Ok(Poly {
            tree: self.tree.try_clone(alloc)?,
        })
    }

    /// The size: at most 4,096.
    pub fn size(&self) -> u64
        ensures same { result ≡ size_of self.now }
        ensures normal { IsNormal self.now }
    {
        size_of_poly(&self.tree)
    }

    /// The depth: at most 64.
    pub fn depth(&self) -> u32
        ensures same { result ≡ depth_of self.now }
        ensures normal { IsNormal self.now }
    {
        depth_of_poly(&self.tree)
    }

    /// The weight: at most 2^127 - 1.
    #[tactic(auto, using(crate::proofs::Simple::light))]
    pub fn weight(&self) -> u128
        ensures same { result ≡ weight_of self.now }
        ensures normal { IsNormal self.now }
    {
        weight_of_poly(&self.tree)
    }

    /// Whether the symbol `p` stands in the polynomial.
    pub fn mentions(&self, p: Pos) -> bool
        ensures { result ≡ mentions_of p self.now }
    {
        poly_mentions(&self.tree, &p)
    }
}

fn symbol_tree(alloc: Global, p: Pos) -> Result<PolyTree, NoMemory>
    ensures { IfOk result (λ tree. polynomial_in tree ≡ polynomial_of_symbol p) }
{
    let mut atoms = Vec::new(alloc);
    atoms.push(Atom::Sym(p))?;
    let mut monos = Vec::new(alloc);
    monos.push((MonoTree { atoms }, 1))?;
    Ok(PolyTree { monos })
}

fn number_tree(alloc: Global, c: i128) -> Result<PolyTree, NoMemory>
    ensures { IfOk result (λ tree. polynomial_in tree ≡ polynomial_of_number c) }
{
    let mut monos = Vec::new(alloc);
    if c != 0 {
        let atoms = Vec::new(alloc);
        monos.push((MonoTree { atoms }, c))?;
    }
    Ok(PolyTree { monos })
}

impl PartialEq for Poly {
    ghost use Rattle.std.specs.Ordering.{eq_by_cmp};
    ghost use Rattle.nf_trees.specs.Order.{cmp_polynomial};
    ghost use Rattle.nf_trees.specs.Comparison.{polynomials_equal_partly};

    ghost eq = { eq_by_cmp cmp_polynomial };

    ghost laws = { polynomials_equal_partly };

    fn eq(&self, other: &Poly) -> bool {
        compare_polys(&self.tree, &other.tree) == Ordering::Equal
    }
}

impl Eq for Poly {
    ghost use Rattle.nf_trees.specs.Comparison.{polynomials_equal};

    ghost laws = { polynomials_equal };
}

impl PartialOrd for Poly {
    ghost use Rattle.std.specs.Prelude.{Some};
    ghost use Rattle.nf_trees.specs.Order.{cmp_polynomial};
    ghost use Rattle.nf_trees.specs.Comparison.{polynomials_partly};

    ghost partial_cmp = { λ x y. Some (cmp_polynomial x y) };

    ghost laws = { polynomials_partly };

    fn partial_cmp(&self, other: &Poly) -> Option<Ordering> {
        Some(self.cmp(other))
    }
}

impl Ord for Poly {
    ghost use Rattle.std.specs.Prelude.{refl};
    ghost use Rattle.nf_trees.specs.Order.{cmp_polynomial};
    ghost use Rattle.nf_trees.specs.Comparison.{polynomials_total};

    ghost cmp = { cmp_polynomial };

    ghost total = { polynomials_total };

    ghost matches_partial_cmp = { λ x y. refl };

    ghost matches_eq = { λ x y. refl };

    fn cmp(&self, other: &Poly) -> Ordering {
        compare_polys(&self.tree, &other.tree)
    }
}
