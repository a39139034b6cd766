//! Reads of arrays.

ghost use Rattle.std.specs.Prelude.{◌≡◌, map, IsTrue};
ghost use Rattle.nf_trees.specs.NormalTerms.{writes_of, Over, Read};
ghost use Rattle.nf_trees.specs.View.{polynomial_in, write_in};
ghost use Rattle.nf_trees.specs.Order.{same_polynomial};
ghost use Rattle.nf_terms.specs.Normal.{IsNormalArray, ordered, ordered_writes, stays_read};
ghost use Rattle.nf_terms.specs.Computed.{Answers};
ghost use Rattle.nf_arrays.specs.NewAtoms.{new_atom as new_atom_of};
ghost use Rattle.nf_arrays.specs.Writes.{are_apart, prefix_for, read_here, read_at};

use crate::atoms::new_atom;
use crate::copies::copy_read;
use nf_terms::arr::Arr;
use nf_terms::constants::differs_by_constant;
use nf_terms::order::compare_polys;
use nf_terms::poly::Poly;
use nf_terms::stop::NfStop;
use nf_trees::tree::{Base, PolyTree};
use std::alloc::Global;
use std::cmp::Ordering;

// Whether two polynomials are the same.
pub(crate) fn is_same(l: &PolyTree, r: &PolyTree) -> bool
    ensures { result ≡ same_polynomial (polynomial_in l.now) (polynomial_in r.now) }
{
    compare_polys(l, r) == Ordering::Equal
}

// Whether two indices differ by a constant that is not 0.
#[tactic(auto, using(crate::proofs::Stopping::apart_by_same))]
fn are_apart(index: &PolyTree, i: &PolyTree) -> bool
    requires left { IsTrue (ordered (polynomial_in index.now)) }
    requires right { IsTrue (ordered (polynomial_in i.now)) }
    ensures { result ≡ are_apart (polynomial_in index.now) (polynomial_in i.now) }
{
    differs_by_constant(index, i) && !is_same(index, i)
}

// The writes up to the last one at which a read at `i` stops.
fn prefix_for<'a>(writes: &'a [(PolyTree, PolyTree)], i: &PolyTree) -> &'a [(PolyTree, PolyTree)]
    requires tidy { IsTrue (ordered_writes (writes_of (map write_in writes.now))) }
    requires index { IsTrue (ordered (polynomial_in i.now)) }
    ensures { writes_of (map write_in result.now) ≡ prefix_for (polynomial_in i.now) (writes_of (map write_in writes.now)) }
{
    let mut rest = writes;
    'back: while let Some(((index, _value), earlier)) = rest.split_last() {
        if !are_apart(index, i) {
            break 'back;
        }
        rest = earlier;
    }
    rest
}

// A read that stays one.
fn read_atom(
    alloc: Global,
    base: Base,
    writes: &[(PolyTree, PolyTree)],
    i: &Poly,
) -> Result<Poly, NfStop>
    requires normal { IsNormalArray (Over base (writes_of (map write_in writes.now))) }
    requires stays { IsTrue (stays_read (Over base (writes_of (map write_in writes.now))) i.now) }
    ensures { Answers result (new_atom_of (Read (Over base (writes_of (map write_in writes.now))) i.now)) }
{
    let atom = copy_read(alloc, base, writes, i.tree())?;
    new_atom(alloc, atom)
}

// A read of an array whose last write is not apart from the index.
fn read_stopped(
    alloc: Global,
    base: Base,
    writes: &[(PolyTree, PolyTree)],
    i: &Poly,
) -> Result<Poly, NfStop>
    requires normal { IsNormalArray (Over base (writes_of (map write_in writes.now))) }
    requires stops { prefix_for i.now (writes_of (map write_in writes.now)) ≡ writes_of (map write_in writes.now) }
    ensures { Answers result (read_here (Over base (writes_of (map write_in writes.now))) i.now) }
{
    let _size = i.size(); // The call tells the proof that the form is normal.
    match writes.split_last() {
        None => match base {
            Base::Zero => Ok(Poly::number(alloc, 0)?),
            Base::Sym(_) => read_atom(alloc, base, writes, i),
        },
        Some(((index, value), _earlier)) => {
            if is_same(index, i.tree()) {
                return Ok(Poly::from_normal(value.try_clone(alloc)?));
            }
            read_atom(alloc, base, writes, i)
        }
    }
}

/// What the array holds at the index: the value of the last write there, where the writes behind it differ from the index by
/// constants that are not 0; 0 of an array that is 0 everywhere; else an atom, which reads the array up to the last write
/// that may be at the index.
///
/// `Large` comes exactly where a new atom is past a limit: where 2, the size of the array that it reads and that of the index
/// are past 4,096, which is carried with depth 0, or else where its depth is past 64. `Wide` never comes. `NoMemory` comes
/// when memory runs out.
///
/// McCarthy, "Towards a mathematical science of computation" (1962): reads over writes.
pub fn read(alloc: Global, a: &Arr, i: &Poly) -> Result<Poly, NfStop>
    ensures { Answers result (read_at a.now i.now) }
{
    let _size = i.size(); // The call tells the proof that the form is normal.
    let base = a.base();
    read_stopped(alloc, base, prefix_for(a.writes(), i.tree()), i)
}
