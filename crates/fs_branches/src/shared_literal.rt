//! Literals with their negations, shared by the branches below a test.

ghost use Rattle.std.specs.Prelude.{◌≡◌, IfOk};
ghost use Rattle.fs_model.specs.Trees.{negated_literal};
ghost use Rattle.fs_model.specs.View.{literal_of, shared_literal_of};

use fs_model::memory::share;
use fs_model::name::NoMemory;
use fs_model::parts::{Lit, VarId};
use std::alloc::Global;
use std::marker::Model;
use std::rc::Rc;

/// A literal and its negation, each with any number of owners. Contracts see the literal.
#[derive(Drop)]
pub struct SharedLiteral {
    literal: Rc<Lit<VarId>>,
    negation: Rc<Lit<VarId>>,
}

impl Model for SharedLiteral {
    ghost use Rattle.std.specs.Prelude.{◌≡◌, ℕ};
    ghost use Rattle.fs_model.specs.Expressions.{Literal};
    ghost use Rattle.fs_model.specs.Codes.{coded_literal};
    ghost use Rattle.fs_model.specs.Trees.{negated_literal};
    ghost use Rattle.fs_model.specs.View.{shared_literal_of};

    ghost Value = { Literal ℕ };

    ghost coded = { coded_literal };

    ghost view = { λ s. shared_literal_of s.literal };

    ghost invariant = { λ s. shared_literal_of s.negation ≡ negated_literal (shared_literal_of s.literal) };
}

// A copy of a literal, with one owner.
fn share_copy(alloc: Global, lit: &Lit<VarId>) -> Result<Rc<Lit<VarId>>, NoMemory>
    ensures { IfOk result (λ l. shared_literal_of l ≡ literal_of lit.now) }
{
    share(alloc, lit.try_clone(alloc)?)
}

impl SharedLiteral {
    /// Copies of a literal and of its negation, with one owner. The one refusal is out of memory.
    pub fn of(alloc: Global, lit: &Lit<VarId>) -> Result<SharedLiteral, NoMemory>
        ensures { IfOk result (λ s. s ≡ literal_of lit.now) }
    {
        let negation = share(alloc, lit.negation(alloc)?)?;
        let literal = share_copy(alloc, lit)?;
        Ok(SharedLiteral { literal, negation })
    }

    /// One owner more of the literal. The one refusal is out of memory.
    pub fn literal(&self) -> Result<Rc<Lit<VarId>>, NoMemory>
        ensures { IfOk result (λ l. shared_literal_of l ≡ self.now) }
    {
        Ok(self.literal.clone()?)
    }

    /// One owner more of the negation. The one refusal is out of memory.
    pub fn negation(&self) -> Result<Rc<Lit<VarId>>, NoMemory>
        ensures { IfOk result (λ l. shared_literal_of l ≡ negated_literal self.now) }
    {
        Ok(self.negation.clone()?)
    }
}
