//! Atoms made of their parts.

ghost use Rattle.std.specs.Prelude.{◌≡◌, IfOk};
ghost use Rattle.nf_trees.specs.NormalTerms.{Read, Quotient, Remainder};
ghost use Rattle.nf_trees.specs.View.{atom_in, polynomial_in, array_in};

use crate::stop::NoMemory;
use crate::tree::{ArrTree, Atom, PolyTree};
use std::alloc::Global;

// The value in a box.
fn put_in_box<T: Drop>(alloc: Global, value: T) -> Result<Box<T>, NoMemory>
    ensures { IfOk result (λ b. b.value ≡ value) }
{
    Ok(Box::new(alloc, value)?)
}

/// Two values, each in a box of its own. The one refusal is out of memory.
pub fn both_boxed<A: Drop, B: Drop>(alloc: Global, a: A, b: B) -> Result<(Box<A>, Box<B>), NoMemory>
    ensures left { IfOk result (λ p. p.0.value ≡ a) }
    ensures right { IfOk result (λ p. p.1.value ≡ b) }
{
    Ok((put_in_box(alloc, a)?, put_in_box(alloc, b)?))
}

/// An array read at an index. The one refusal is out of memory.
pub fn make_read(alloc: Global, array: ArrTree, index: PolyTree) -> Result<Atom, NoMemory>
    ensures { IfOk result (λ a. atom_in a ≡ Read (array_in array) (polynomial_in index)) }
{
    let (array, index) = both_boxed(alloc, array, index)?;
    Ok(Atom::Read(array, index))
}

/// A quotient. The one refusal is out of memory.
pub fn make_quotient(alloc: Global, left: PolyTree, right: PolyTree) -> Result<Atom, NoMemory>
    ensures { IfOk result (λ a. atom_in a ≡ Quotient (polynomial_in left) (polynomial_in right)) }
{
    let (left, right) = both_boxed(alloc, left, right)?;
    Ok(Atom::Div(left, right))
}

/// A remainder. The one refusal is out of memory.
pub fn make_remainder(alloc: Global, left: PolyTree, right: PolyTree) -> Result<Atom, NoMemory>
    ensures { IfOk result (λ a. atom_in a ≡ Remainder (polynomial_in left) (polynomial_in right)) }
{
    let (left, right) = both_boxed(alloc, left, right)?;
    Ok(Atom::Rem(left, right))
}
