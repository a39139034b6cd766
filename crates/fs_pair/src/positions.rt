//! The positions of two machines.

ghost use Rattle.std.specs.Prelude.{◌≡◌, ◌<◌, ◌^◌, length, map, IfOk, Some, None};
ghost use Rattle.std.specs.List.{position_from};
ghost use Rattle.std.specs.Result.{OnOk, IfErr};
ghost use Rattle.fs_model.specs.Sides.{same_side};
ghost use Rattle.fs_pair.specs.Interfaces.{interface_fault};
ghost use Rattle.fs_pair.specs.SidedVariables.{is_partner};
ghost use Rattle.fs_pair.specs.View.{sided_variable_of};
ghost use Rattle.fs_pair.specs.Positions.{position_of, positions};
ghost use Rattle.fs_pair.specs.Paired.{IsPairing};
ghost use Rattle.fs_pair.specs.InterfaceRefusals.{TellsFault};

use crate::interfaces::first_unmatched;
use crate::memory::NoMemory;
use crate::sided_variables::{Member, all_members, same_name_and_sort};
use fs_ast::machine::Machine;
use fs_model::name::Name;
use fs_model::parts::{Role, Sort};
use fs_model::sides::{Pos, Side};
use std::alloc::Global;
use std::marker::Model;

/// A variable of one of two machines. `partner` is the member, in their list, of the other machine's variable of its name and
/// sort.
#[derive(Clone, Copy)]
pub struct Position {
    pub pos: Pos,
    pub role: Role,
    pub sort: Sort,
    pub partner: Option<u32>,
}

/// The positions of two machines with the same interface.
#[derive(Drop)]
pub struct Pairing {
    positions: Vec<Position>,
}

impl Model for Pairing {
    ghost use Rattle.std.specs.Prelude.{List};
    ghost use Rattle.fs_pair.specs.declared.positions.Position.{Position};
    ghost use Rattle.fs_pair.specs.Paired.{IsPairing};

    ghost Value = { List Position };

    ghost view = { λ p. p.positions.items };

    ghost invariant = { λ p. IsPairing p.positions.items };
}

impl Pairing {
    /// What holds of each pairing; nothing runs.
    pub fn holds(&self)
        ensures { IsPairing self.now }
    {
        let _positions = &self.positions; // The read tells the proof what the type promises of its values.
    }

    /// The variables of the left machine in order of declaration, each followed by the right
    /// machine's of its name and sort, then the right machine's others in order. Takes no memory.
    pub fn positions(&self) -> &[Position]
        ensures { result.now ≡ self.now }
    {
        self.positions.as_slice()
    }
}

/// Why two machines have no pairing.
#[derive(Drop)]
pub enum FaceError {
    /// An input or output of one machine that is absent from the other or has another role or sort there.
    Interface { name: Name },
    /// Out of memory.
    NoMemory,
}

impl From<NoMemory> for FaceError {
    ghost use Rattle.fs_pair.specs.declared.positions.FaceError.TheVariants as refusal;

    ghost from_gives = { λ _ e. e ≡ refusal.NoMemory };

    fn from(_refused: NoMemory) -> FaceError {
        FaceError::NoMemory
    }
}

// Whether two sides are one.
fn same_side(left: Side, right: Side) -> bool
    ensures { result ≡ same_side left right }
{
    left == right
}

// Whether the other member is the other side's variable of the name and the sort of a member.
fn is_partner(member: &Member<'_>, other: &Member<'_>) -> bool
    ensures { result ≡ is_partner (sided_variable_of member.now) (sided_variable_of other.now) }
{
    !same_side(member.pos.side, other.pos.side)
        && same_name_and_sort(member.variable, other.variable)
}

// Where the partner of a member stands among the members.
fn partner(members: &[Member<'_>], member: &Member<'_>) -> Option<u32>
    requires { length members.now < 2 ^ 32 }
    ensures { result ≡ position_from (is_partner (sided_variable_of member.now)) 0 (map sided_variable_of members.now) }
{
    for (number, other) in members.iter().enumerate() {
        if is_partner(member, other) {
            return Some(number as u32);
        }
    }
    None
}

// The position of a member, with its partner among the members.
fn place_member(members: &[Member<'_>], member: &Member<'_>) -> Position
    requires { length members.now < 2 ^ 32 }
    ensures { result ≡ position_of (map sided_variable_of members.now) (sided_variable_of member.now) }
{
    Position {
        pos: member.pos,
        role: member.variable.role,
        sort: member.variable.sort,
        partner: partner(members, member),
    }
}

// The positions of members, in order.
fn all_positions(alloc: Global, members: &[Member<'_>]) -> Result<Vec<Position>, NoMemory>
    requires { length members.now < 2 ^ 32 }
    ensures { IfOk result
        (λ out. out.items ≡ map (position_of (map sided_variable_of members.now)) (map sided_variable_of members.now)) }
{
    let mut out = Vec::new(alloc);
    for member in members {
        out.push(place_member(members, member))?;
    }
    Ok(out)
}

/// The positions of two machines, the left one first.
///
/// `Interface` comes exactly where an input or output of one machine is absent from the other or has
/// another role or sort there, and names the first such of the left machine in order of declaration,
/// else the first of the right one. `NoMemory`: out of memory.
pub fn same_interface(alloc: Global, a: &Machine, b: &Machine) -> Result<Pairing, FaceError>
    ensures same { OnOk result (interface_fault a.now b.now ≡ None) }
    ensures paired { IfOk result (λ p. p ≡ positions a.now b.now) }
    ensures fault { IfErr result (TellsFault (interface_fault a.now b.now)) }
{
    let (left, right) = (a.vars(), b.vars());
    let unmatched = match first_unmatched(left, right) {
        Some(name) => Some(name),
        None => first_unmatched(right, left),
    };
    if let Some(name) = unmatched {
        return Err(refusal(alloc, name));
    }
    let members = all_members(alloc, left, right)?;
    let positions = all_positions(alloc, members.as_slice())?;
    Ok(Pairing { positions })
}

// The refusal that names an input or output.
fn refusal(alloc: Global, name: &Name) -> FaceError
    ensures { TellsFault (Some name.now) result }
{
    match name.try_clone(alloc) {
        Ok(name) => FaceError::Interface { name },
        Err(_) => FaceError::NoMemory,
    }
}
