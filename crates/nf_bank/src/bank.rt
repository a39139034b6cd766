//! Atoms, each once, by their numbers.

ghost use Rattle.std.specs.Prelude.{◌≡◌, ◌<◌, ◌≤◌, [], length, take, slice_get, Some};
ghost use Rattle.std.specs.Prelude.{IfOk, OnOk, OnErr};
ghost use Rattle.nf_trees.specs.View.{atom_in};
ghost use Rattle.nf_bank.specs.Atoms.{atom_place, with_one, with_atom, IsBank, IsFront};
ghost use Rattle.nf_bank.specs.HeldAtoms.{IsClosedUnderAtoms};
ghost use Rattle.nf_bank.specs.AtomNumbers.{bound_of_node, atom_of_number, atom_over};

pub use crate::node::AtomId;
use crate::node::Node;
use crate::numbering::put_atom;
use crate::trees::atom_tree;
use indexmap::IndexSet;
use nf_terms::stop::NoMemory;
use nf_trees::tree::Atom;
use std::alloc::Global;
use std::marker::Model;

/// Atoms, each once, those in an atom before it. An atom is kept as a node over numbers, at the place that is its number:
/// two numbers of one bank are equal exactly where their atoms are.
#[derive(Drop)]
pub struct Bank {
    nodes: IndexSet<Node>,
}

impl Model for Bank {
    ghost use Rattle.std.specs.Prelude.{List};
    ghost use Rattle.nf_trees.specs.NormalTerms.{Atom};
    ghost use Rattle.nf_bank.specs.Atoms.{coded_atoms};
    ghost use Rattle.nf_bank.specs.AtomGraphs.{atoms_of, IsAtomGraph};

    ghost Value = { List Atom };

    ghost coded = { coded_atoms };

    ghost view = { λ b. atoms_of b.nodes.keys };

    ghost invariant = { λ b. IsAtomGraph b.nodes.keys };
}

impl Bank {
    /// No atom.
    pub fn new(alloc: Global) -> Bank
        ensures { result ≡ [] }
    {
        Bank {
            nodes: IndexSet::new(alloc),
        }
    }

    /// How many atoms there are.
    pub fn len(&self) -> u64
        ensures number { result ≡ length self.now }
        ensures bank { IsBank self.now }
    {
        self.nodes.len() as u64
    }

    /// The number of an atom. Where it is not there, the atoms in it that are not there and then the atom itself are put last.
    ///
    /// The one refusal is out of memory, and leaves the bank unchanged.
    #[tactic(auto, using(crate::proofs::Fronts::cut_back))]
    pub fn put(&mut self, alloc: Global, a: &Atom) -> Result<AtomId, NoMemory>
        ensures kept { OnOk result (self.new ≡ with_atom (atom_in a.now) self.old) }
        ensures place { IfOk result (λ id. atom_place (atom_in a.now) self.new ≡ Some id.0) }
        ensures front { IsFront self.old self.new }
        ensures refused { OnErr result (self.new ≡ self.old) }
    {
        let before = self.len();
        match put_atom(alloc, self, a) {
            Ok(id) => Ok(id),
            Err(refused) => {
                self.truncate(before);
                Err(refused)
            }
        }
    }

    /// The atom of a number. The one refusal is out of memory.
    #[tactic(auto, using(crate::proofs::Places::at_place))]
    pub fn get(&self, alloc: Global, id: AtomId) -> Result<Atom, NoMemory>
        requires { id.0 < length self.now }
        ensures { IfOk result (λ a. slice_get self.now id.0 ≡ Some (atom_in a)) }
    {
        atom_tree(alloc, self, id)
    }

    /// The node of a number: over the bank's atoms it is the atom of the number, and the numbers in it are smaller. Takes no
    /// memory.
    pub fn node(&self, id: AtomId) -> &Node
        requires { id.0 < length self.now }
        ensures atom { atom_over self.now result.now ≡ atom_of_number self.now id }
        ensures within { bound_of_node result.now ≤ id.0 }
    {
        match self.nodes.get_index(id.0 as usize) {
            Some(node) => node,
            None => unreachable!(),
        }
    }

    /// Takes out all atoms but the first ones, as many as `count`.
    pub fn truncate(&mut self, count: u64)
        ensures { self.new ≡ take count self.old }
    {
        self.nodes.truncate(count as usize);
    }

    // With each atom the atoms in it are there; nothing runs.
    pub(crate) fn see_closed(&self)
        ensures { IsClosedUnderAtoms self.now }
    {
        let _nodes = &self.nodes; // The read tells the proof what the type promises of its values.
    }

    // The number of the atom of a node, which is put last if it is not there.
    pub(crate) fn put_node(&mut self, node: Node) -> Result<AtomId, NoMemory>
        requires { bound_of_node node ≤ length self.old }
        ensures kept { OnOk result (self.new ≡ with_one (atom_over self.old node) self.old) }
        ensures place { IfOk result (λ id. atom_place (atom_over self.old node) self.new ≡ Some id.0) }
        ensures front { IsFront self.old self.new }
    {
        let (place, _added) = self.nodes.insert_full(node)?;
        Ok(AtomId(place as u64))
    }
}
