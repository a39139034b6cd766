//! Normal forms: numbers, arrays and lists.

ghost use Rattle.std.specs.Prelude.{◌≡◌, IfOk};
ghost use Rattle.nf_terms.specs.Forms.{IsNormalForm, sort_of_form, size_of_form, depth_of_form, mentions_form, same_form};

use crate::arr::Arr;
use crate::poly::Poly;
use crate::seq::Seq;
use crate::stop::NoMemory;
use crate::symbols::Sort;
use crate::tree::Pos;
use std::alloc::Global;

/// A normal form: a number, an array or a list.
#[derive(Drop)]
pub enum Nf {
    Num(Poly),
    Arr(Arr),
    Seq(Seq),
}

impl Nf {
    /// The sort of what the form stands for.
    pub fn sort(&self) -> Sort
        ensures { result ≡ sort_of_form self.now }
    {
        match self {
            Nf::Num(_) => Sort::Scalar,
            Nf::Arr(_) => Sort::Array,
            Nf::Seq(_) => Sort::List,
        }
    }

    /// The size: at most 4,096.
    pub fn size(&self) -> u64
        ensures same { result ≡ size_of_form self.now }
        ensures normal { IsNormalForm self.now }
    {
        match self {
            Nf::Num(number) => number.size(),
            Nf::Arr(array) => array.size(),
            Nf::Seq(list) => list.size(),
        }
    }

    /// The depth: at most 64.
    pub fn depth(&self) -> u32
        ensures same { result ≡ depth_of_form self.now }
        ensures normal { IsNormalForm self.now }
    {
        match self {
            Nf::Num(number) => number.depth(),
            Nf::Arr(array) => array.depth(),
            Nf::Seq(list) => list.depth(),
        }
    }

    /// Whether the symbol `p` stands in the form.
    pub fn mentions(&self, p: Pos) -> bool
        ensures { result ≡ mentions_form p self.now }
    {
        match self {
            Nf::Num(number) => number.mentions(p),
            Nf::Arr(array) => array.mentions(p),
            Nf::Seq(list) => list.mentions(p),
        }
    }

    /// A copy. The one refusal is out of memory.
    pub fn try_clone(&self, alloc: Global) -> Result<Nf, NoMemory>
        ensures { IfOk result (λ copy. copy ≡ self.now) }
    {
        match self {
            Nf::Num(number) => Ok(Nf::Num(number.try_clone(alloc)?)),
            Nf::Arr(array) => Ok(Nf::Arr(array.try_clone(alloc)?)),
            Nf::Seq(list) => Ok(Nf::Seq(list.try_clone(alloc)?)),
        }
    }

    /// Whether two forms are of one sort and the same.
    pub fn is_same(&self, other: &Nf) -> bool
        ensures { result ≡ same_form self.now other.now }
    {
        match self {
            Nf::Num(left) => match other {
                Nf::Num(right) => left == right,
                Nf::Arr(_) | Nf::Seq(_) => false,
            },
            Nf::Arr(left) => match other {
                Nf::Arr(right) => left == right,
                Nf::Num(_) | Nf::Seq(_) => false,
            },
            Nf::Seq(left) => match other {
                Nf::Seq(right) => left == right,
                Nf::Num(_) | Nf::Arr(_) => false,
            },
        }
    }
}
