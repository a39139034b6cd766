//! Laws of searches of alike machines, over the definitions alone. The functions do nothing.

ghost use Rattle.std.specs.Prelude.{◌≡◌, ℕ, List, None};
ghost use Rattle.fs_model.specs.SoundMachines.{IsSound};
ghost use Rattle.fs_model.specs.Machines.{Fsmd};
ghost use Rattle.fs_cut.specs.Paths.{Point};
ghost use Rattle.fs_pair.specs.Interfaces.{interface_fault};
ghost use Rattle.fs_model.specs.declared.sides.Side.{Side};
ghost use Rattle.cert_bisimulation.specs.Alike.{DeclareTheSame, Alike};
ghost use Rattle.search_tables.specs.declared.moves.Move.{Move as PlainMove};
ghost use Rattle.search_tables.specs.SearchTables.{MachinePair};
ghost use Rattle.search_tables.specs.Obstacles.{Stuck, Spin, IsObstacle};

/// Limits alone stop a search of alike machines: no legal list of moves leads to outputs that differ, nor to one machine alone in
/// a cycle.
pub fn limits_alone_stop_alike_machines()
    ensures stuck { (m : MachinePair) (pairs : List (Point × Point)) (moves : List PlainMove) (node output : ℕ)
        → IsSound m.left → IsSound m.right → Alike m.left m.right pairs → IsObstacle m moves (Stuck node output) → ⊥ }
    ensures spin { (m : MachinePair) (pairs : List (Point × Point)) (moves : List PlainMove) (side : Side) (cycle : List ℕ)
        → IsSound m.left → IsSound m.right → Alike m.left m.right pairs → IsObstacle m moves (Spin side cycle) → ⊥ }
{}

/// Machines that declare the same have the same inputs and outputs.
pub fn machines_that_declare_the_same_have_one_interface()
    ensures { (a b : Fsmd) → IsSound a → IsSound b → DeclareTheSame a b → interface_fault a b ≡ None }
{}
