//! Normal forms that are shared.

ghost use Rattle.std.specs.Prelude.{◌≡◌, IfOk};
ghost use Rattle.nf_terms.specs.Forms.{IsNormalForm, sort_of_form};

use nf_terms::form::Nf;
use nf_terms::stop::NoMemory;
use nf_terms::symbols::Sort;
use std::alloc::Global;
use std::marker::Model;
use std::rc::Rc;

/// A normal form with any number of owners: a copy is one owner more, and no term is copied.
#[derive(Drop)]
pub struct SharedForm {
    form: Rc<Nf>,
}

impl Model for SharedForm {
    ghost use Rattle.nf_terms.specs.FormCodes.{coded_form};
    ghost use Rattle.nf_terms.specs.declared.form.Nf.{Nf};

    ghost Value = { Nf };

    ghost coded = { coded_form };

    ghost view = { λ s. s.form.value };
}

impl SharedForm {
    /// A form with one owner. The one refusal is out of memory.
    pub fn of(alloc: Global, form: Nf) -> Result<SharedForm, NoMemory>
        ensures { IfOk result (λ s. s ≡ form) }
    {
        Ok(SharedForm {
            form: Rc::new(alloc, form)?,
        })
    }

    /// The form.
    pub fn form(&self) -> &Nf
        ensures { result.now ≡ self.now }
    {
        self.form.as_ref()
    }

    /// The sort of what the form stands for.
    pub fn sort(&self) -> Sort
        ensures same { result ≡ sort_of_form self.now }
        ensures normal { IsNormalForm self.now }
    {
        match self.form() {
            Nf::Num(number) => {
                let _tree = number.tree(); // The call tells the proof that the form is normal.
                Sort::Scalar
            }
            Nf::Arr(array) => {
                let _tree = array.tree(); // The call tells the proof that the form is normal.
                Sort::Array
            }
            Nf::Seq(list) => {
                let _base = list.base(); // The call tells the proof that the form is normal.
                Sort::List
            }
        }
    }

    /// One owner more: no term is copied. The one refusal is out of memory.
    pub fn try_clone(&self) -> Result<SharedForm, NoMemory>
        ensures { IfOk result (λ copy. copy ≡ self.now) }
    {
        Ok(SharedForm {
            form: self.form.clone()?,
        })
    }
}
