//! Laws of banks. The functions do nothing.

ghost use Rattle.std.specs.Prelude.{◌≡◌, ℕ, List, Some, slice_get};
ghost use Rattle.nf_trees.specs.NormalTerms.{Atom};
ghost use Rattle.nf_bank.specs.Atoms.{IsBank, atom_place};

/// In a bank an atom has one number: the place at which it stands is the one that is found for it.
#[tactic(auto, using(crate::proofs::Places::places))]
pub fn atoms_have_one_number()
    ensures { (atoms : List Atom) (a : Atom) (k : ℕ) → IsBank atoms → slice_get atoms k ≡ Some a → atom_place a atoms ≡ Some k }
{}
