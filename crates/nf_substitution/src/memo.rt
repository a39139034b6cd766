//! The values of atoms by their numbers.

ghost use Rattle.std.specs.Prelude.{◌≡◌, ◌≢◌, ◌<◌, ℕ, [], Some, length, take, option_map, IfOk, OnOk, OnErr};
ghost use Rattle.nf_terms.specs.Computed.{Answers, Done};
ghost use Rattle.nf_substitution.specs.Keeping.{known_value};

use crate::shared_number::SharedNumber;
use nf_bank::node::AtomId;
use nf_terms::poly::Poly;
use nf_terms::stop::{NfStop, NoMemory};
use std::alloc::Global;
use std::marker::Model;

/// The values of atoms by their numbers, as far as they are known.
#[derive(Drop)]
pub(crate) struct Memo {
    by_number: Vec<Option<SharedNumber>>,
}

impl Model for Memo {
    ghost use Rattle.std.specs.Prelude.{List, Option};
    ghost use Rattle.std.specs.Coded.{coded_list, coded_option};
    ghost use Rattle.nf_trees.specs.NormalTerms.{Polynomial};
    ghost use Rattle.nf_terms.specs.Codes.{coded_polynomial};

    ghost Value = { List (Option Polynomial) };

    ghost coded = { coded_list (coded_option coded_polynomial) };

    ghost view = { λ v. v.by_number.items };
}

impl Memo {
    /// No value.
    pub(crate) fn new(alloc: Global) -> Memo
        ensures { result ≡ [] }
    {
        Memo {
            by_number: Vec::new(alloc),
        }
    }

    // The value of a number.
    fn known_value(&self, id: AtomId) -> Option<&SharedNumber>
        ensures { option_map (λ p. p.now) result ≡ known_value self.now id.0 }
    {
        match self.by_number.get(id.0 as usize) {
            Some(value) => value.as_ref(),
            None => None,
        }
    }

    /// The value of a number, shared, if it is known. The one refusal is out of memory.
    pub(crate) fn get(&self, id: AtomId) -> Result<Option<SharedNumber>, NoMemory>
        ensures { IfOk result (λ value. value ≡ known_value self.now id.0) }
    {
        match self.known_value(id) {
            Some(value) => Ok(Some(value.try_clone()?)),
            None => Ok(None),
        }
    }

    // Makes room for the value of a number.
    #[tactic(auto, using(crate::proofs::Known::none_more))]
    fn make_room(&mut self, id: AtomId) -> Result<(), NoMemory>
        ensures room { OnOk result (id.0 < length self.new) }
        ensures same { (k : ℕ) → known_value self.new k ≡ known_value self.old k }
    {
        while self.by_number.len() as u64 <= id.0 {
            self.by_number.push(None)?;
        }
        Ok(())
    }

    // Keeps the value of a number, shared.
    fn keep(&mut self, id: AtomId, value: &SharedNumber) -> Result<(), NoMemory>
        ensures kept { OnOk result (known_value self.new id.0 ≡ Some value.now) }
        ensures others { (k : ℕ) → k ≢ id.0 → known_value self.new k ≡ known_value self.old k }
        ensures refused { OnErr result ((k : ℕ) → known_value self.new k ≡ known_value self.old k) }
    {
        self.make_room(id)?;
        self.by_number[id.0 as usize] = Some(value.try_clone()?);
        Ok(())
    }

    /// Keeps the value of a number, and gives it shared. The one refusal is out of memory.
    pub(crate) fn keep_number(
        &mut self,
        alloc: Global,
        id: AtomId,
        value: Poly,
    ) -> Result<SharedNumber, NfStop>
        ensures answers { Answers result (Done value) }
        ensures kept { OnOk result (known_value self.new id.0 ≡ Some value) }
        ensures others { (k : ℕ) → k ≢ id.0 → known_value self.new k ≡ known_value self.old k }
        ensures refused { OnErr result ((k : ℕ) → known_value self.new k ≡ known_value self.old k) }
    {
        let shared = SharedNumber::of(alloc, value)?;
        self.keep(id, &shared)?;
        Ok(shared)
    }

    /// Forgets the values of all numbers but the first ones, as many as `count`.
    pub(crate) fn truncate(&mut self, count: u64)
        ensures { self.new ≡ take count self.old }
    {
        self.by_number.truncate(count as usize);
    }
}
