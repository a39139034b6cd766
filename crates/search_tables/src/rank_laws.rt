//! Laws of ranks, over the definitions alone. The functions do nothing.

ghost use Rattle.std.specs.Prelude.{ℕ, List, slice_index};
ghost use Rattle.search_tables.specs.Graphs.{IsCycle, LongestChain, AreRanks};

/// A graph that has ranks has no cycle.
pub fn ranks_and_cycles_exclude_each_other()
    ensures { (E : List (List ℕ)) (ranks xs : List ℕ) → AreRanks E ranks → IsCycle E xs → ⊥ }
{}

/// The rank of a node is the length of a longest chain of edges from it: there is a chain of that length, and none is longer.
pub fn ranks_are_lengths_of_longest_chains()
    ensures { (E : List (List ℕ)) (ranks : List ℕ) (i : ℕ) → AreRanks E ranks → LongestChain E i (slice_index ranks i) }
{}
