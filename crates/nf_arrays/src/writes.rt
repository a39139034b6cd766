//! Writes of arrays.

ghost use Rattle.std.specs.Prelude.{◌≡◌, ◌≤◌, ◌++◌, ◌∷◌, map, take, drop, length, OnOk, IfOk, IsTrue};
ghost use Rattle.nf_trees.specs.NormalTerms.{Polynomial, writes_of};
ghost use Rattle.nf_trees.specs.View.{polynomial_in, array_in, write_in};
ghost use Rattle.nf_terms.specs.Normal.{ordered, ordered_writes};
ghost use Rattle.nf_terms.specs.Computed.{Answers};
ghost use Rattle.nf_terms.specs.Tidied.{goes_after, with_write, rising_stretches, last_writes, tidy_array};
ghost use Rattle.nf_arrays.specs.Writes.{written_last, with_last_write, indices_ordered, write_array};

use crate::copies::{array_of, copy_both, push_write_copy};
use crate::reads::is_same;
use nf_terms::arr::Arr;
use nf_terms::constants::{constant_part, differs_by_constant};
use nf_terms::limits::{DEPTH_LIMIT, SIZE_LIMIT};
use nf_terms::measures::depth_of_arr;
use nf_terms::poly::Poly;
use nf_terms::stop::{NfStop, NoMemory};
use nf_trees::tree::{ArrTree, PolyTree};
use std::alloc::Global;

// Whether two indices in order differ by a constant, and the second one is the lower.
#[tactic(auto, using(crate::proofs::Stopping::after_by_parts))]
fn is_after(index: &PolyTree, other: &PolyTree) -> bool
    requires left { IsTrue (ordered (polynomial_in index.now)) }
    requires right { IsTrue (ordered (polynomial_in other.now)) }
    ensures { result ≡ goes_after (polynomial_in index.now) (polynomial_in other.now) }
{
    differs_by_constant(index, other) && constant_part(other) < constant_part(index)
}

// The place of a write at this index among tidy writes.
fn place_of(writes: &[(PolyTree, PolyTree)], index: &PolyTree) -> usize
    requires indices { IsTrue (indices_ordered (writes_of (map write_in writes.now))) }
    requires index { IsTrue (ordered (polynomial_in index.now)) }
    ensures within { result ≤ length writes.now }
    ensures placed { (v : Polynomial) → with_write (polynomial_in index.now) v (writes_of (map write_in writes.now))
        ≡ writes_of
        (map write_in (take result writes.now) ++ (polynomial_in index.now, v) ∷ map write_in (drop result writes.now)) }
{
    for (place, (other, _value)) in writes.iter().enumerate() {
        if !is_after(index, other) {
            return place;
        }
    }
    writes.len()
}

// Puts a copy of a write in its place.
fn place_write(
    alloc: Global,
    out: &mut Vec<(PolyTree, PolyTree)>,
    index: &PolyTree,
    value: &PolyTree,
) -> Result<(), NoMemory>
    requires indices { IsTrue (indices_ordered (writes_of (map write_in out.old.items))) }
    requires index { IsTrue (ordered (polynomial_in index.now)) }
    ensures { OnOk result
        (writes_of (map write_in out.new.items) ≡ with_write (polynomial_in index.now) (polynomial_in value.now)
        (writes_of (map write_in out.old.items))) }
{
    let place = place_of(out, index);
    out.insert(place, copy_both(alloc, index, value)?)?;
    Ok(())
}

// The tidied form of tidy writes and one more.
fn tidied_with(
    alloc: Global,
    writes: &[(PolyTree, PolyTree)],
    index: &PolyTree,
    value: &PolyTree,
) -> Result<Vec<(PolyTree, PolyTree)>, NoMemory>
    requires tidy { IsTrue (ordered_writes (writes_of (map write_in writes.now))) }
    requires index { IsTrue (ordered (polynomial_in index.now)) }
    ensures { IfOk result
        (λ v. writes_of (map write_in v.items) ≡ rising_stretches
        (last_writes (written_last (writes_of (map write_in writes.now)) (polynomial_in index.now) (polynomial_in value.now)))) }
{
    let mut out = Vec::new(alloc);
    push_write_copy(alloc, &mut out, index, value)?;
    let mut rest = writes;
    'back: while let Some(((other, held), earlier)) = rest.split_last() {
        if !is_same(other, index) {
            place_write(alloc, &mut out, other, held)?;
        }
        rest = earlier;
    }
    Ok(out)
}

// The tree of an array after a write.
fn written_tree(alloc: Global, a: &Arr, i: &Poly, v: &Poly) -> Result<ArrTree, NoMemory>
    ensures { IfOk result (λ tree. array_in tree ≡ tidy_array (with_last_write a.now i.now v.now)) }
{
    let writes = tidied_with(alloc, a.writes(), i.tree(), v.tree())?;
    let base = a.base();
    Ok(array_of(base, writes))
}

/// The array after the value is written at the index: an earlier write at the same index goes, and the new one stands last, or
/// among the last writes whose indices differ from its own by constants, in rising order.
///
/// `Large` comes exactly where the size of the array, 1, and the sizes of the index and the value are past 4,096 together,
/// which is carried with depth 0, or else where the depth of the result is past 64. `Wide` never comes. `NoMemory` comes
/// when memory runs out.
pub fn write(alloc: Global, a: &Arr, i: &Poly, v: &Poly) -> Result<Arr, NfStop>
    ensures { Answers result (write_array a.now i.now v.now) }
{
    let units = a.size() + 1 + i.size() + v.size();
    if units > SIZE_LIMIT {
        return Err(NfStop::Large { units, depth: 0 });
    }
    let tree = written_tree(alloc, a, i, v)?;
    let depth = depth_of_arr(&tree);
    if depth > DEPTH_LIMIT {
        return Err(NfStop::Large { units, depth });
    }
    Ok(Arr::from_normal(tree))
}
