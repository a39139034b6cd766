//! Copies, and lists that grow.

ghost use Rattle.std.specs.Prelude.{◌≡◌, ◌++◌, ◌∷◌, [], map, Ok, IfOk, OnOk};
ghost use Rattle.nf_trees.specs.View.{atom_in, monomial_in, polynomial_in, term_in, write_in};

use crate::stop::NoMemory;
use crate::tree::{Atom, MonoTree, PolyTree};

/// Two copies that were made, or that one of them was refused.
pub(crate) fn both<A: Drop, B: Drop>(
    left: Result<A, NoMemory>,
    right: Result<B, NoMemory>,
) -> Result<(A, B), NoMemory>
    ensures left { IfOk result (λ p. left ≡ Ok p.0) }
    ensures right { IfOk result (λ p. right ≡ Ok p.1) }
{
    Ok((left?, right?))
}

/// Adds an atom. The one refusal is out of memory.
pub fn push_atom(out: &mut Vec<Atom>, atom: Atom) -> Result<(), NoMemory>
    ensures { OnOk result (map atom_in out.new.items ≡ map atom_in out.old.items ++ atom_in atom ∷ []) }
{
    out.push(atom)?;
    Ok(())
}

/// Adds a monomial with its coefficient. The one refusal is out of memory.
pub fn push_term(
    out: &mut Vec<(MonoTree, i128)>,
    mono: MonoTree,
    coefficient: &i128,
) -> Result<(), NoMemory>
    ensures { OnOk result (map term_in out.new.items ≡ map term_in out.old.items ++ (monomial_in mono, coefficient.now) ∷ []) }
{
    out.push((mono, *coefficient))?;
    Ok(())
}

/// Adds a write. The one refusal is out of memory.
pub fn push_write(
    out: &mut Vec<(PolyTree, PolyTree)>,
    index: PolyTree,
    value: PolyTree,
) -> Result<(), NoMemory>
    ensures { OnOk result
        (map write_in out.new.items ≡ map write_in out.old.items ++ (polynomial_in index, polynomial_in value) ∷ []) }
{
    out.push((index, value))?;
    Ok(())
}
