//! Laws of positions and outputs, over the definitions alone. The functions do nothing.

ghost use Rattle.std.specs.Prelude.{◌≡◌, ℕ, ◌+◌, ◌<◌, List, length, map, Some, None, slice_get};
ghost use Rattle.std.specs.List.{count_by, filter, AllByRecursion};
ghost use Rattle.fs_model.specs.SoundMachines.{IsSound};
ghost use Rattle.fs_model.specs.Machines.{Fsmd};
ghost use Rattle.fs_model.specs.Stores.{Store};
ghost use Rattle.fs_model.specs.Runs.{output};
ghost use Rattle.fs_model.specs.declared.sides.Side.{Side};
ghost use Rattle.fs_model.specs.declared.sides.Side.TheVariants.{Left, Right};
ghost use Rattle.fs_model.specs.Sides.{same_side};
ghost use Rattle.fs_pair.specs.declared.positions.Position.{Position};
ghost use Rattle.fs_pair.specs.Interfaces.{interface_fault};
ghost use Rattle.fs_pair.specs.Positions.{positions};
ghost use Rattle.fs_pair.specs.PairedOutputs.{AgreeOnOutput, output_pairs};
ghost use Rattle.fs_pair.specs.Partners.{variables_on, is_position_of, side_positions, StandsForVariable, HasPartner, ComesLater};

/// Each position is a variable of its side, and each variable of both machines is a position exactly once.
pub fn each_variable_is_one_position()
    ensures variable { (a b : Fsmd) (k : ℕ) (p : Position) → slice_get (positions a b) k ≡ Some p → StandsForVariable a b p }
    ensures once { (a b : Fsmd) (side : Side) (x : ℕ) → IsSound a → IsSound b → x < length (variables_on side a b)
        → count_by (λ p. is_position_of side x p.pos) (positions a b) ≡ 1 }
{}

/// The left variables come in order, each followed by its partner if there is one, and at the end the right ones without partner
/// in order.
pub fn positions_are_in_order()
    ensures lefts { (a b : Fsmd) → map (λ p. p.pos) (filter (λ p. same_side p.pos.side Left) (positions a b))
        ≡ side_positions Left (length a.variables) }
    ensures followed { (a b : Fsmd) (k j : ℕ) (p : Position) → IsSound a → IsSound b → slice_get (positions a b) k ≡ Some p
        → p.pos.side ≡ Left → p.partner ≡ Some j → j ≡ k + 1 }
    ensures last { (a b : Fsmd) (k i : ℕ) (p q : Position) → slice_get (positions a b) k ≡ Some p → p.pos.side ≡ Right
        → p.partner ≡ None → slice_get (positions a b) i ≡ Some q → k < i → ComesLater p q }
{}

/// A partner is the other side's variable of the same name and sort, and of the same role where the interfaces are equal. The
/// partner of a partner is the position itself.
pub fn partners_are_mutual()
    ensures alike { (a b : Fsmd) (k j : ℕ) (p : Position) → slice_get (positions a b) k ≡ Some p → p.partner ≡ Some j
        → HasPartner a b p j }
    ensures role { (a b : Fsmd) (j : ℕ) (p : Position) → IsSound a → IsSound b → interface_fault a b ≡ None
        → (h : HasPartner a b p j) → h.partner.role ≡ p.role }
    ensures mutual { (a b : Fsmd) (k j : ℕ) (p q : Position) → IsSound a → IsSound b → slice_get (positions a b) k ≡ Some p
        → p.partner ≡ Some j → slice_get (positions a b) j ≡ Some q → q.partner ≡ Some k }
{}

/// Where each output of the left machine holds the same as the right one's variable of its name, both have the same outputs by
/// name.
pub fn outputs_meet()
    ensures { (a b : Fsmd) (s u : Store) → interface_fault a b ≡ None
        → AllByRecursion (AgreeOnOutput s u) (output_pairs 0 a.variables b.variables) → (name : List ℕ)
        → output a s name ≡ output b u name }
{}
