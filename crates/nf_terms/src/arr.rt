//! Normal arrays.

ghost use Rattle.std.specs.Prelude.{◌≡◌, map, IfOk, MatchOption};
ghost use Rattle.nf_trees.specs.NormalTerms.{writes_of, writes_over, base_of, bare_array};
ghost use Rattle.nf_trees.specs.View.{array_in, write_in};
ghost use Rattle.nf_trees.specs.Measures.{size_of_array, depth_of_array};
ghost use Rattle.nf_trees.specs.Mentions.{mentions_array};
ghost use Rattle.nf_terms.specs.Normal.{IsNormalArray};

use crate::normal::is_normal_arr;
use crate::stop::NoMemory;
use crate::tree::{ArrTree, Base, PolyTree, Pos};
use nf_trees::measures::{depth_of_arr, size_of_arr};
use nf_trees::mentions::arr_mentions;
use nf_trees::order::compare_arrs;
use std::alloc::Global;
use std::cmp::Ordering;
use std::marker::Model;

/// An array that is normal in all its parts and within the limits of size, depth and weight.
#[derive(Drop)]
pub struct Arr {
    tree: ArrTree,
}

impl Model for Arr {
    ghost use Rattle.nf_trees.specs.NormalTerms.{ArrayTerm};
    ghost use Rattle.nf_terms.specs.Codes.{coded_array};
    ghost use Rattle.nf_trees.specs.View.{array_in};
    ghost use Rattle.nf_terms.specs.Normal.{IsNormalArray};

    ghost Value = { ArrayTerm };

    ghost coded = { coded_array };

    ghost view = { λ a. array_in a.tree };

    ghost invariant = { λ a. IsNormalArray (array_in a.tree) };
}

impl Arr {
    /// The array of a tree.
    ///
    /// `None` comes exactly where the tree or a part of it is not normal or is past a limit.
    pub fn of(tree: ArrTree) -> Option<Arr>
        ensures { MatchOption result (¬ IsNormalArray (array_in tree)) (λ a. a ≡ array_in tree) }
    {
        if is_normal_arr(&tree) {
            Some(Arr { tree })
        } else {
            None
        }
    }

    /// The array of a tree that is known to be normal: it is not looked at.
    pub fn from_normal(tree: ArrTree) -> Arr
        requires { IsNormalArray (array_in tree) }
        ensures { result ≡ array_in tree }
    {
        Arr { tree }
    }

    /// The array of a base without writes.
    #[tactic(auto, using(crate::proofs::Simple::simple))]
    pub fn bare(alloc: Global, base: Base) -> Arr
        ensures { result ≡ bare_array base }
    {
        let writes = Vec::new(alloc);
        Arr {
            tree: ArrTree { base, writes },
        }
    }

    /// The tree.
    pub fn tree(&self) -> &ArrTree
        ensures same { array_in result.now ≡ self.now }
        ensures normal { IsNormalArray self.now }
    {
        &self.tree
    }

    /// The tree, taken out.
    pub fn into_tree(self) -> ArrTree
        ensures same { array_in result ≡ self }
        ensures normal { IsNormalArray self }
    {
        self.tree
    }

    /// What the writes begin from.
    pub fn base(&self) -> Base
        ensures same { result ≡ base_of self.now }
        ensures normal { IsNormalArray self.now }
    {
        self.tree.base
    }

    /// The writes, each an index and a value, the first write first.
    pub fn writes(&self) -> &[(PolyTree, PolyTree)]
        ensures same { writes_of (map write_in result.now) ≡ writes_over self.now }
        ensures normal { IsNormalArray self.now }
    {
        &self.tree.writes
    }

    /// A copy. The one refusal is out of memory.
    pub fn try_clone(&self, alloc: Global) -> Result<Arr, NoMemory>
        ensures { IfOk result (λ copy. copy ≡ self.now) }
    {
        Ok(Arr {
            tree: self.tree.try_clone(alloc)?,
        })
    }

    /// The size: at most 4,096.
    pub fn size(&self) -> u64
        ensures same { result ≡ size_of_array self.now }
        ensures normal { IsNormalArray self.now }
    {
        size_of_arr(&self.tree)
    }

    /// The depth: at most 64.
    pub fn depth(&self) -> u32
        ensures same { result ≡ depth_of_array self.now }
        ensures normal { IsNormalArray self.now }
    {
        depth_of_arr(&self.tree)
    }

    /// Whether the symbol `p` is the array's base or stands in its writes.
    pub fn mentions(&self, p: Pos) -> bool
        ensures { result ≡ mentions_array p self.now }
    {
        arr_mentions(&self.tree, &p)
    }
}

impl PartialEq for Arr {
    ghost use Rattle.std.specs.Ordering.{eq_by_cmp};
    ghost use Rattle.nf_trees.specs.Order.{cmp_array};
    ghost use Rattle.nf_trees.specs.Comparison.{arrays_equal_partly};

    ghost eq = { eq_by_cmp cmp_array };

    ghost laws = { arrays_equal_partly };

    fn eq(&self, other: &Arr) -> bool {
        compare_arrs(&self.tree, &other.tree) == Ordering::Equal
    }
}

impl Eq for Arr {
    ghost use Rattle.nf_trees.specs.Comparison.{arrays_equal};

    ghost laws = { arrays_equal };
}

impl PartialOrd for Arr {
    ghost use Rattle.std.specs.Prelude.{Some};
    ghost use Rattle.nf_trees.specs.Order.{cmp_array};
    ghost use Rattle.nf_trees.specs.Comparison.{arrays_partly};

    ghost partial_cmp = { λ x y. Some (cmp_array x y) };

    ghost laws = { arrays_partly };

    fn partial_cmp(&self, other: &Arr) -> Option<Ordering> {
        Some(self.cmp(other))
    }
}

impl Ord for Arr {
    ghost use Rattle.std.specs.Prelude.{refl};
    ghost use Rattle.nf_trees.specs.Order.{cmp_array};
    ghost use Rattle.nf_trees.specs.Comparison.{arrays_total};

    ghost cmp = { cmp_array };

    ghost total = { arrays_total };

    ghost matches_partial_cmp = { λ x y. refl };

    ghost matches_eq = { λ x y. refl };

    fn cmp(&self, other: &Arr) -> Ordering {
        compare_arrs(&self.tree, &other.tree)
    }
}
