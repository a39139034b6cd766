//! Copies of trees.

ghost use Rattle.std.specs.Prelude.{◌≡◌, IfOk};
ghost use Rattle.nf_trees.specs.View.{atom_in, monomial_in, polynomial_in, array_in};

use crate::atoms::{make_quotient, make_read, make_remainder};
use crate::copies::{both, push_atom, push_term, push_write};
use crate::stop::NoMemory;
use crate::tree::{ArrTree, Atom, MonoTree, PolyTree};
use std::alloc::Global;

impl Atom {
    /// A copy: the same atom. The one refusal is out of memory.
    #[cycle(clones)]
    pub fn try_clone(&self, alloc: Global) -> Result<Atom, NoMemory>
        ensures { IfOk result (λ copy. atom_in copy ≡ atom_in self.now) }
    {
        match self {
            Atom::Sym(p) => Ok(Atom::Sym(*p)),
            Atom::Read(array, index) => {
                let (array, index) = both(array.try_clone(alloc), index.try_clone(alloc))?;
                make_read(alloc, array, index)
            }
            Atom::Div(left, right) => {
                let (left, right) = both(left.try_clone(alloc), right.try_clone(alloc))?;
                make_quotient(alloc, left, right)
            }
            Atom::Rem(left, right) => {
                let (left, right) = both(left.try_clone(alloc), right.try_clone(alloc))?;
                make_remainder(alloc, left, right)
            }
        }
    }
}

impl MonoTree {
    /// A copy: the same monomial. The one refusal is out of memory.
    #[cycle(clones)]
    pub fn try_clone(&self, alloc: Global) -> Result<MonoTree, NoMemory>
        ensures { IfOk result (λ copy. monomial_in copy ≡ monomial_in self.now) }
    {
        let mut atoms = Vec::with_capacity(alloc, self.atoms.len())?;
        for atom in &self.atoms {
            push_atom(&mut atoms, atom.try_clone(alloc)?)?;
        }
        Ok(MonoTree { atoms })
    }
}

impl PolyTree {
    /// A copy: the same polynomial. The one refusal is out of memory.
    #[cycle(clones)]
    pub fn try_clone(&self, alloc: Global) -> Result<PolyTree, NoMemory>
        ensures { IfOk result (λ copy. polynomial_in copy ≡ polynomial_in self.now) }
    {
        let mut monos = Vec::with_capacity(alloc, self.monos.len())?;
        for (mono, coefficient) in &self.monos {
            push_term(&mut monos, mono.try_clone(alloc)?, coefficient)?;
        }
        Ok(PolyTree { monos })
    }
}

impl ArrTree {
    /// A copy: the same array. The one refusal is out of memory.
    #[cycle(clones)]
    pub fn try_clone(&self, alloc: Global) -> Result<ArrTree, NoMemory>
        ensures { IfOk result (λ copy. array_in copy ≡ array_in self.now) }
    {
        let mut writes = Vec::with_capacity(alloc, self.writes.len())?;
        for (index, value) in &self.writes {
            let (index, value) = both(index.try_clone(alloc), value.try_clone(alloc))?;
            push_write(&mut writes, index, value)?;
        }
        Ok(ArrTree {
            base: self.base,
            writes,
        })
    }
}
