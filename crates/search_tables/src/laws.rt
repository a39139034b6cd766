//! Laws of tables, over the definitions alone. The functions do nothing.

ghost use Rattle.std.specs.Prelude.{◌+◌, ◌*◌, length, ◌≤◌, slice_get, slice_index, ◌≡◌, ◌⊎◌, ℕ, List, [], Some, None};
ghost use Rattle.std.specs.List.{AllByRecursion};
ghost use Rattle.fs_model.specs.SoundMachines.{IsSound};
ghost use Rattle.fs_model.specs.Machines.{Fsmd};
ghost use Rattle.fs_pair.specs.Interfaces.{interface_fault};
ghost use Rattle.fs_pair.specs.Positions.{positions};
ghost use Rattle.cert_bisimulation.specs.Tables.{Node as CertificateNode};
ghost use Rattle.cert_bisimulation.specs.declared.mode.Mode.TheVariants.{Both, End};
ghost use Rattle.nf_terms.specs.Computed.{Done};
ghost use Rattle.cert_model.specs.Facts.{Fact as PlainFact, most_literals, vector_of};
ghost use Rattle.cert_model.specs.Entailment.{entails};
ghost use Rattle.cert_model.specs.Pairings.{IsFactOf};
ghost use Rattle.cert_model.specs.Starts.{start_fact};
ghost use Rattle.cert_model.specs.Lawful.{IsLawful, most_nodes, most_rank};
ghost use Rattle.cert_model.specs.Obligations.{Yes, verdict};
ghost use Rattle.search_tables.specs.Graphs.{LongestChain, AreRanks};
ghost use Rattle.search_tables.specs.declared.moves.Move.{Move as PlainMove};
ghost use Rattle.search_tables.specs.SearchTables.{MachinePair, Table, positions_of};
ghost use Rattle.search_tables.specs.Next.{IsClosed};
ghost use Rattle.search_tables.specs.Legal.{difference_in, Makes, IsPrefixOf};
ghost use Rattle.search_tables.specs.LoneMoves.{lone_moves};
ghost use Rattle.search_tables.specs.TableInvariants.{IsWellFormed};
ghost use Rattle.search_tables.specs.Certifying.{Certifies};
ghost use Rattle.search_tables.specs.Obstacles.{Obstacle, StandsIn, IsObstacle};

/// Of two legal lists of moves one is a prefix of the other.
pub fn legal_lists_are_prefixes()
    ensures { (m : MachinePair) (xs ys : List PlainMove) (T U : Table) → Makes m xs T → Makes m ys U
        → IsPrefixOf xs ys ⊎ IsPrefixOf ys xs }
{}

/// The vector of the start fact entails the start fact.
pub fn the_start_fact_entails_itself()
    ensures { (a b : Fsmd) → IsSound a → interface_fault a b ≡ None
        → entails (record { conditions = []; vector = vector_of (start_fact (positions a b)).positions })
        (start_fact (positions a b)) ≡ Done (record { equations = []; literals = [] }) }
{}

/// All obligations of the certificate of a table hold where a legal list of moves makes the table, it is closed and has no
/// outputs that differ, and its lone moves have ranks.
pub fn closed_tables_are_certified()
    ensures { (m : MachinePair) → IsSound m.left → interface_fault m.left m.right ≡ None
        → (moves : List PlainMove) (T : Table) (ranks : List ℕ) (nodes : List (CertificateNode PlainFact)) → Makes m moves T
        → IsClosed m T → difference_in m T ≡ None → AreRanks (lone_moves m T) ranks → Certifies m T ranks nodes
        → verdict m.left m.right (start_fact (positions_of m)) nodes ≡ Yes }
{}

/// A table that a legal list of moves makes has at most 4,096 nodes, each at two points of its machines, and no two at the same
/// points.
pub fn legal_tables_are_well_formed()
    ensures { (m : MachinePair) → IsSound m.left → IsSound m.right → (moves : List PlainMove) (T : Table) → Makes m moves T
        → IsWellFormed m T }
{}

/// The facts of a table that a legal list of moves makes are of the pairing: each has exactly its positions, each with a form of
/// its sort, whose symbols, as those of its literals, are positions of the pairing.
pub fn facts_of_legal_tables_are_of_the_pairing()
    ensures { (m : MachinePair) (moves : List PlainMove) (T : Table) → Makes m moves T
        → AllByRecursion (λ n. IsFactOf (positions_of m) n.fact) T }
{}

/// The rank of a node of a table's certificate is the length of a longest chain of moves from it by which one machine moves
/// alone, there and at each target: there is a chain of that length, and none is longer. Where both machines move, or neither,
/// it is 0.
pub fn ranks_of_certificates_are_lengths_of_chains()
    ensures longest { (m : MachinePair) (T : Table) (ranks : List ℕ) (nodes : List (CertificateNode PlainFact))
        → AreRanks (lone_moves m T) ranks → Certifies m T ranks nodes → (i : ℕ) (n : CertificateNode PlainFact)
        → slice_get nodes i ≡ Some n → LongestChain (lone_moves m T) i n.rank }
    ensures both { (m : MachinePair) (T : Table) (ranks : List ℕ) (nodes : List (CertificateNode PlainFact))
        → AreRanks (lone_moves m T) ranks → Certifies m T ranks nodes → (i : ℕ) (n : CertificateNode PlainFact)
        → slice_get nodes i ≡ Some n → n.mode ≡ Both → n.rank ≡ 0 }
    ensures end { (m : MachinePair) (T : Table) (ranks : List ℕ) (nodes : List (CertificateNode PlainFact))
        → AreRanks (lone_moves m T) ranks → Certifies m T ranks nodes → (i : ℕ) (n : CertificateNode PlainFact)
        → slice_get nodes i ≡ Some n → n.mode ≡ End → n.rank ≡ 0 }
{}

/// The certificate of a well-formed table whose facts are of the pairing is lawful, where its ranks are at most 4,096.
pub fn certificates_of_tables_are_lawful()
    ensures { (m : MachinePair) (T : Table) (ranks : List ℕ) (nodes : List (CertificateNode PlainFact)) → IsWellFormed m T
        → AllByRecursion (λ n. IsFactOf (positions_of m) n.fact) T → ((i : ℕ) → slice_index ranks i ≤ most_rank)
        → Certifies m T ranks nodes → IsLawful m.left m.right nodes }
{}

/// All obstacles of two machines stand in the same table, which the same moves make, and no certificate is made of it.
pub fn obstacles_stand_in_one_table()
    ensures one { (m : MachinePair) (xs ys : List PlainMove) (o p : Obstacle) (h : IsObstacle m xs o) (k : IsObstacle m ys p)
        → (xs ≡ ys) × (h.table ≡ k.table) }
    ensures no_certificate { (m : MachinePair) (T : Table) (o : Obstacle) (ranks : List ℕ) → StandsIn m T o → IsClosed m T
        → difference_in m T ≡ None → AreRanks (lone_moves m T) ranks → ⊥ }
{}

/// A legal list of moves has at most 4,096 times as many moves as there are positions and 65 more: each move makes a node, or
/// drops an equation or a literal.
pub fn legal_lists_are_short()
    ensures { (m : MachinePair) (moves : List PlainMove) (T : Table) → Makes m moves T
        → length moves ≤ most_nodes * (length (positions_of m) + most_literals + 1) }
{}
