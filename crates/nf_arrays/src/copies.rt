//! Writes that are copied, and trees made of them.

ghost use Rattle.std.specs.Prelude.{◌≡◌, ◌++◌, ◌∷◌, [], map, OnOk, IfOk};
ghost use Rattle.nf_trees.specs.NormalTerms.{writes_of, Over, Read};
ghost use Rattle.nf_trees.specs.View.{atom_in, polynomial_in, array_in, write_in};

use nf_terms::atoms::make_read;
use nf_terms::copies::push_write;
use nf_terms::stop::NoMemory;
use nf_trees::tree::{ArrTree, Atom, Base, PolyTree};
use std::alloc::Global;

/// Copies of two trees. The one refusal is out of memory.
pub(crate) fn copy_both(
    alloc: Global,
    l: &PolyTree,
    r: &PolyTree,
) -> Result<(PolyTree, PolyTree), NoMemory>
    ensures left { IfOk result (λ p. polynomial_in p.0 ≡ polynomial_in l.now) }
    ensures right { IfOk result (λ p. polynomial_in p.1 ≡ polynomial_in r.now) }
{
    let left = l.try_clone(alloc)?;
    Ok((left, r.try_clone(alloc)?))
}

/// Adds a copy of a write. The one refusal is out of memory.
pub(crate) fn push_write_copy(
    alloc: Global,
    out: &mut Vec<(PolyTree, PolyTree)>,
    index: &PolyTree,
    value: &PolyTree,
) -> Result<(), NoMemory>
    ensures { OnOk result
        (map write_in out.new.items ≡ map write_in out.old.items ++ (polynomial_in index.now, polynomial_in value.now) ∷ []) }
{
    let (index, value) = copy_both(alloc, index, value)?;
    push_write(out, index, value)
}

// A copy of writes.
fn copy_writes(
    alloc: Global,
    writes: &[(PolyTree, PolyTree)],
) -> Result<Vec<(PolyTree, PolyTree)>, NoMemory>
    ensures { IfOk result (λ v. map write_in v.items ≡ map write_in writes.now) }
{
    let mut out = Vec::new(alloc);
    for (index, value) in writes {
        push_write_copy(alloc, &mut out, index, value)?;
    }
    Ok(out)
}

/// The tree of a base and writes.
pub(crate) fn array_of(base: Base, writes: Vec<(PolyTree, PolyTree)>) -> ArrTree
    ensures { array_in result ≡ Over base (writes_of (map write_in writes.items)) }
{
    ArrTree { base, writes }
}

/// The atom that reads copies of writes over a base at an index. The one refusal is out of memory.
pub(crate) fn copy_read(
    alloc: Global,
    base: Base,
    writes: &[(PolyTree, PolyTree)],
    index: &PolyTree,
) -> Result<Atom, NoMemory>
    ensures { IfOk result (λ a. atom_in a ≡ Read (Over base (writes_of (map write_in writes.now))) (polynomial_in index.now)) }
{
    let writes = copy_writes(alloc, writes)?;
    make_read(alloc, array_of(base, writes), index.try_clone(alloc)?)
}
