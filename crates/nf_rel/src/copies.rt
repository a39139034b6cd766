//! Copies of literals, their sizes, and which are the same.

ghost use Rattle.std.specs.Prelude.{◌≡◌, IfOk};
ghost use Rattle.nf_rel.specs.NormalLiterals.{same_literal, size_of_literal};
ghost use Rattle.nf_rel.specs.View.{literal_in};

use crate::literals::{Bound, NLit};
use nf_terms::stop::NoMemory;
use std::alloc::Global;

impl NLit {
    /// A copy. The one refusal is out of memory.
    pub fn try_clone(&self, alloc: Global) -> Result<NLit, NoMemory>
        ensures { IfOk result (λ copy. literal_in copy ≡ literal_in self.now) }
    {
        match self {
            NLit::True => Ok(NLit::True),
            NLit::False => Ok(NLit::False),
            NLit::Is(b) => Ok(NLit::Is(Bound {
                dir: b.dir.try_clone(alloc)?,
                kind: b.kind,
                bound: b.bound,
            })),
        }
    }

    /// The size: 1, and the size of the direction. At most 4,097.
    pub fn size(&self) -> u64
        ensures { result ≡ size_of_literal (literal_in self.now) }
    {
        match self {
            NLit::True | NLit::False => 1,
            NLit::Is(b) => 1 + b.dir.size(),
        }
    }
}

/// Whether two literals are the same. Directions are looked at last.
pub fn is_same(l: &NLit, m: &NLit) -> bool
    ensures { result ≡ same_literal (literal_in l.now) (literal_in m.now) }
{
    match l {
        NLit::True => match m {
            NLit::True => true,
            NLit::False | NLit::Is(_) => false,
        },
        NLit::False => match m {
            NLit::False => true,
            NLit::True | NLit::Is(_) => false,
        },
        NLit::Is(b) => match m {
            NLit::True | NLit::False => false,
            NLit::Is(c) => b.kind == c.kind && b.bound == c.bound && b.dir == c.dir,
        },
    }
}
