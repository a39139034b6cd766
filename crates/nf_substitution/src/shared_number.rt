//! Numbers that are shared.

ghost use Rattle.std.specs.Prelude.{◌≡◌, IfOk};
ghost use Rattle.nf_terms.specs.Normal.{IsNormal};

use nf_terms::poly::Poly;
use nf_terms::stop::NoMemory;
use std::alloc::Global;
use std::marker::Model;
use std::rc::Rc;

/// A number with any number of owners: a copy is one owner more, and no term is copied.
#[derive(Drop)]
pub(crate) struct SharedNumber {
    shared: Rc<Poly>,
}

impl Model for SharedNumber {
    ghost use Rattle.nf_trees.specs.NormalTerms.{Polynomial};
    ghost use Rattle.nf_terms.specs.Codes.{coded_polynomial};

    ghost Value = { Polynomial };

    ghost coded = { coded_polynomial };

    ghost view = { λ s. s.shared.value };
}

impl SharedNumber {
    /// A number with one owner. The one refusal is out of memory.
    pub(crate) fn of(alloc: Global, number: Poly) -> Result<SharedNumber, NoMemory>
        ensures { IfOk result (λ s. s ≡ number) }
    {
        Ok(SharedNumber {
            shared: Rc::new(alloc, number)?,
        })
    }

    /// The number.
    pub(crate) fn number(&self) -> &Poly
        ensures same { result.now ≡ self.now }
        ensures normal { IsNormal self.now }
    {
        let number = self.shared.as_ref();
        let _tree = number.tree(); // The call tells the proof that the number is normal.
        number
    }

    /// One owner more: no term is copied. The one refusal is out of memory.
    pub(crate) fn try_clone(&self) -> Result<SharedNumber, NoMemory>
        ensures { IfOk result (λ copy. copy ≡ self.now) }
    {
        Ok(SharedNumber {
            shared: self.shared.clone()?,
        })
    }
}
