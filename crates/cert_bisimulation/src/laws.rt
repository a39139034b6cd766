//! The law of the method of nodes, over the definitions alone. The functions do nothing.

ghost use Rattle.std.specs.Prelude.{List};
ghost use Rattle.fs_model.specs.SoundMachines.{IsSound};
ghost use Rattle.fs_model.specs.Machines.{Fsmd};
ghost use Rattle.fs_model.specs.Runs.{SameBehaviour};
ghost use Rattle.cert_bisimulation.specs.Tables.{Node, LeadsOn};
ghost use Rattle.cert_bisimulation.specs.Tests.{Tests, AllTrue};

/// Machines for which a table of nodes leads on have the same behaviour. Facts are tests here; the
/// lemma behind it is for all facts.
pub fn nodes_lead_runs()
    ensures { (a b : Fsmd) → IsSound a → IsSound b → (table : List (Node Tests)) → LeadsOn AllTrue a b table → SameBehaviour a b }
{}
