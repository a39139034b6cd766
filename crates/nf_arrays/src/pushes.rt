//! Pushes onto lists.

ghost use Rattle.std.specs.Prelude.{◌≡◌, ◌+◌, ◌++◌, ◌∷◌, [], max, IfOk};
ghost use Rattle.nf_terms.specs.Computed.{Answers};
ghost use Rattle.nf_arrays.specs.Pushes.{list_with_item};

use nf_terms::limits::{DEPTH_LIMIT, SIZE_LIMIT};
use nf_terms::poly::Poly;
use nf_terms::seq::Seq;
use nf_terms::stop::{NfStop, NoMemory};
use std::alloc::Global;

// Copies of items, and one more.
fn copied_with(alloc: Global, items: &[Poly], last: &Poly) -> Result<Vec<Poly>, NoMemory>
    ensures { IfOk result (λ v. v.items ≡ items.now ++ last.now ∷ []) }
{
    let mut out = Vec::new(alloc);
    for item in items {
        out.push(item.try_clone(alloc)?)?;
    }
    out.push(last.try_clone(alloc)?)?;
    Ok(out)
}

/// The list with the value behind its items.
///
/// `Large` comes exactly where the size of the list, 1, and the size of the value are past 4,096 together, which is carried
/// with depth 0, or else where the depth of the result is past 64. `Wide` never comes. `NoMemory` comes when memory runs out.
#[tactic(auto, using(crate::proofs::Pushing::pushing))]
pub fn push(alloc: Global, s: &Seq, v: &Poly) -> Result<Seq, NfStop>
    ensures { Answers result (list_with_item s.now v.now) }
{
    let units = s.size() + 1 + v.size();
    if units > SIZE_LIMIT {
        return Err(NfStop::Large { units, depth: 0 });
    }
    let depth = s.depth().max(v.depth() + 1);
    if depth > DEPTH_LIMIT {
        return Err(NfStop::Large { units, depth });
    }
    let items = copied_with(alloc, s.items(), v)?;
    Ok(Seq::from_normal(s.base(), items))
}
