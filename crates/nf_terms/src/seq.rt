//! Normal lists.

ghost use Rattle.std.specs.Prelude.{◌≡◌, ◌+◌, ◌-◌, ◌^◌, min, IfOk, MatchOption};
ghost use Rattle.nf_terms.specs.Lists.{bare_list, size_of_items, size_of_list, depth_of_items, depth_of_list, mentions_items};
ghost use Rattle.nf_terms.specs.Lists.{mentions_list_base, mentions_list, cmp_list_base, cmp_items, AreNormalItems, IsNormalList};

use crate::limits::{DEPTH_LIMIT, SIZE_LIMIT};
use crate::poly::Poly;
use crate::stop::NoMemory;
use crate::tree::{Pos, SeqBase};
use nf_trees::order::compare_pos;
use std::alloc::Global;
use std::cmp::Ordering;
use std::marker::Model;

/// A list that is normal in all its parts and within the limits of size and depth.
#[derive(Drop)]
pub struct Seq {
    base: SeqBase,
    items: Vec<Poly>,
}

impl Model for Seq {
    ghost use Rattle.nf_terms.specs.Lists.{ListTerm, IsNormalList};
    ghost use Rattle.nf_terms.specs.Codes.{coded_list_term};

    ghost Value = { ListTerm };

    ghost coded = { coded_list_term };

    ghost view = { λ s. record { base = s.base; items = s.items.items } };

    ghost invariant = { λ s. IsNormalList (record { base = s.base; items = s.items.items }) };
}

// The size of a list of items with its base, or the largest number.
fn size_of(items: &[Poly]) -> u64
    ensures { result ≡ min (1 + size_of_items items.now) (2 ^ 64 - 1) }
{
    let mut total = 1u64;
    for item in items {
        total = total.saturating_add(item.size()).saturating_add(1);
    }
    total
}

// The depth of items, or the largest number.
fn depth_of(items: &[Poly]) -> u32
    ensures { result ≡ min (depth_of_items items.now) (2 ^ 32 - 1) }
{
    let mut deepest = 0u32;
    for item in items {
        deepest = deepest.max(item.depth().saturating_add(1));
    }
    deepest
}

// Items are normal.
#[tactic(auto, using(crate::proofs::Items::next_keeps_normal_items))]
fn see_normal(items: &[Poly])
    ensures { AreNormalItems items.now }
{
    for item in items {
        let _ = item.size(); // The call tells the proof that the item is normal.
    }
}

// Copies of items.
fn copy_items(alloc: Global, items: &[Poly]) -> Result<Vec<Poly>, NoMemory>
    ensures { IfOk result (λ v. v.items ≡ items.now) }
{
    let mut out = Vec::with_capacity(alloc, items.len())?;
    for item in items {
        out.push(item.try_clone(alloc)?)?;
    }
    Ok(out)
}

// Whether the symbol `p` stands in an item.
fn items_mention(items: &[Poly], p: &Pos) -> bool
    ensures { result ≡ mentions_items p.now items.now }
{
    for item in items {
        if item.mentions(*p) {
            return true;
        }
    }
    false
}

// Whether a base is the symbol `p`.
fn base_mentions(base: &SeqBase, p: &Pos) -> bool
    ensures { result ≡ mentions_list_base p.now base.now }
{
    match base {
        SeqBase::Empty => false,
        SeqBase::Sym(q) => p == q,
    }
}

// Compares two bases: nothing before a symbol.
fn compare_bases(l: SeqBase, r: SeqBase) -> Ordering
    ensures { result ≡ cmp_list_base l r }
{
    match (l, r) {
        (SeqBase::Empty, SeqBase::Empty) => Ordering::Equal,
        (SeqBase::Empty, SeqBase::Sym(_)) => Ordering::Less,
        (SeqBase::Sym(_), SeqBase::Empty) => Ordering::Greater,
        (SeqBase::Sym(p), SeqBase::Sym(q)) => compare_pos(p, q),
    }
}

// Compares items, one after the other.
fn compare_items(l: &[Poly], r: &[Poly]) -> Ordering
    ensures { result ≡ cmp_items l.now r.now }
{
    for (i, a) in l.iter().enumerate() {
        let Some(b) = r.get(i) else {
            return Ordering::Greater;
        };
        match a.cmp(b) {
            Ordering::Equal => {}
            other => return other,
        }
    }
    match r.get(l.len()) {
        Some(_) => Ordering::Less,
        None => Ordering::Equal,
    }
}

impl Seq {
    /// The list of a base without items.
    pub fn bare(alloc: Global, base: SeqBase) -> Seq
        ensures { result ≡ bare_list base }
    {
        let items = Vec::new(alloc);
        Seq { base, items }
    }

    /// The list of a base and items.
    ///
    /// `None` comes exactly where the list is past a limit of size or depth.
    pub fn of(base: SeqBase, items: Vec<Poly>) -> Option<Seq>
        ensures { MatchOption result (¬ IsNormalList (record { base = base; items = items.items }))
            (λ s. s ≡ record { base = base; items = items.items }) }
    {
        see_normal(&items);
        if size_of(&items) <= SIZE_LIMIT && depth_of(&items) <= DEPTH_LIMIT {
            Some(Seq { base, items })
        } else {
            None
        }
    }

    /// The list of a base and items that is known to be normal.
    pub fn from_normal(base: SeqBase, items: Vec<Poly>) -> Seq
        requires { IsNormalList (record { base = base; items = items.items }) }
        ensures { result ≡ record { base = base; items = items.items } }
    {
        Seq { base, items }
    }

    /// What the items stand behind.
    pub fn base(&self) -> SeqBase
        ensures same { result ≡ self.now.base }
        ensures normal { IsNormalList self.now }
    {
        self.base
    }

    /// The items, the first item first.
    pub fn items(&self) -> &[Poly]
        ensures same { result.now ≡ self.now.items }
        ensures normal { IsNormalList self.now }
    {
        &self.items
    }

    /// The size: at most 4,096.
    pub fn size(&self) -> u64
        ensures same { result ≡ size_of_list self.now }
        ensures normal { IsNormalList self.now }
    {
        size_of(&self.items)
    }

    /// The depth: at most 64.
    pub fn depth(&self) -> u32
        ensures same { result ≡ depth_of_list self.now }
        ensures normal { IsNormalList self.now }
    {
        depth_of(&self.items)
    }

    /// Whether the symbol `p` is the list's base or stands in an item.
    pub fn mentions(&self, p: Pos) -> bool
        ensures { result ≡ mentions_list p self.now }
    {
        base_mentions(&self.base, &p) || items_mention(&self.items, &p)
    }

    /// A copy. The one refusal is out of memory.
    pub fn try_clone(&self, alloc: Global) -> Result<Seq, NoMemory>
        ensures { IfOk result (λ copy. copy ≡ self.now) }
    {
        Ok(Seq {
            base: self.base,
            items: copy_items(alloc, &self.items)?,
        })
    }
}

impl PartialEq for Seq {
    ghost use Rattle.std.specs.Ordering.{eq_by_cmp};
    ghost use Rattle.nf_terms.specs.Lists.{cmp_list};
    ghost use Rattle.nf_terms.specs.ListComparison.{lists_equal_partly};

    ghost eq = { eq_by_cmp cmp_list };

    ghost laws = { lists_equal_partly };

    fn eq(&self, other: &Seq) -> bool {
        self.cmp(other) == Ordering::Equal
    }
}

impl Eq for Seq {
    ghost use Rattle.nf_terms.specs.ListComparison.{lists_equal};

    ghost laws = { lists_equal };
}

impl PartialOrd for Seq {
    ghost use Rattle.std.specs.Prelude.{Some};
    ghost use Rattle.nf_terms.specs.Lists.{cmp_list};
    ghost use Rattle.nf_terms.specs.ListComparison.{lists_partly};

    ghost partial_cmp = { λ x y. Some (cmp_list x y) };

    ghost laws = { lists_partly };

    fn partial_cmp(&self, other: &Seq) -> Option<Ordering> {
        Some(self.cmp(other))
    }
}

impl Ord for Seq {
    ghost use Rattle.std.specs.Prelude.{refl};
    ghost use Rattle.nf_terms.specs.Lists.{cmp_list};
    ghost use Rattle.nf_terms.specs.ListComparison.{lists_total};

    ghost cmp = { cmp_list };

    ghost total = { lists_total };

    ghost matches_partial_cmp = { λ x y. refl };

    ghost matches_eq = { λ x y. refl };

    fn cmp(&self, other: &Seq) -> Ordering {
        compare_bases(self.base, other.base).then(compare_items(&self.items, &other.items))
    }
}
