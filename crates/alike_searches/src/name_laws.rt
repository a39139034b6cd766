//! Laws of names and of cuts, over the definitions alone. The functions do nothing.

ghost use Rattle.fs_model.specs.SoundMachines.{IsSound};
ghost use Rattle.fs_model.specs.Machines.{Fsmd};
ghost use Rattle.cert_bisimulation.specs.Alike.{Alike};
ghost use Rattle.alike_searches.specs.RenamedStates.{DifferInNames, own_pairs};
ghost use Rattle.alike_searches.specs.SplitStates.{in_one_step, in_two_steps, their_pairs};

/// Machines that differ only in the names of their states are alike, each point but the return by itself. So is each machine to
/// itself.
pub fn machines_that_differ_in_names_of_states_are_alike()
    ensures { (a b : Fsmd) → IsSound a → DifferInNames a b → Alike a b (own_pairs a) }
{}

/// Two machines are alike, one of which does in two steps what the other does in one.
pub fn a_pair_that_is_cut_in_other_places_is_alike()
    ensures alike { Alike in_one_step in_two_steps their_pairs }
    ensures left_sound { IsSound in_one_step }
    ensures right_sound { IsSound in_two_steps }
{}
