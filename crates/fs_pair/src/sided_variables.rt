//! The variables of two machines in one order.

ghost use Rattle.std.specs.Prelude.{◌≡◌, ◌<◌, ◌≤◌, ◌+◌, ◌*◌, ◌^◌, length, map, ◌++◌, IfOk};
ghost use Rattle.std.specs.List.{filter};
ghost use Rattle.std.specs.Option.{option_to_list};
ghost use Rattle.std.specs.Result.{OnOk};
ghost use Rattle.fs_pair.specs.SidedVariables.{sided_variables, same_name_and_sort, partner_among, with_partners, is_alone};
ghost use Rattle.fs_pair.specs.SidedVariables.{all_sided_variables};
ghost use Rattle.fs_pair.specs.View.{sided_variable_of};

use crate::interfaces::same_sort;
use crate::memory::NoMemory;
use fs_model::parts::VarInfo;
use fs_model::sides::{Pos, Side};
use std::alloc::Global;

/// A variable and its position.
#[derive(Clone, Copy)]
pub struct Member<'a> {
    pub pos: Pos,
    pub variable: &'a VarInfo,
}

// The variables of a side with their positions.
fn members_of<'a>(
    alloc: Global,
    side: Side,
    vars: &'a [VarInfo],
) -> Result<Vec<Member<'a>>, NoMemory>
    requires { length vars.now < 2 ^ 32 }
    ensures { IfOk result (λ out. map sided_variable_of out.items ≡ sided_variables side 0 vars.now) }
{
    let mut out = Vec::new(alloc);
    for (number, variable) in vars.iter().enumerate() {
        let pos = Pos {
            side,
            var: number as u32,
        };
        out.push(Member { pos, variable })?;
    }
    Ok(out)
}

/// Whether two variables have one name and one sort.
pub fn same_name_and_sort(variable: &VarInfo, other: &VarInfo) -> bool
    ensures { result ≡ same_name_and_sort variable.now other.now }
{
    other.name == variable.name && same_sort(other.sort, variable.sort)
}

// Adds the first of the others with the name and the sort of a variable, if there is one.
fn push_partner<'a>(
    out: &mut Vec<Member<'a>>,
    variable: &VarInfo,
    others: &[Member<'a>],
) -> Result<(), NoMemory>
    ensures { OnOk result
        (map sided_variable_of out.new.items ≡ map sided_variable_of out.old.items
        ++ option_to_list (partner_among (map sided_variable_of others.now) variable.now)) }
{
    for other in others {
        if same_name_and_sort(variable, other.variable) {
            out.push(*other)?;
            return Ok(());
        }
    }
    Ok(())
}

// Adds each variable, followed by its partner if there is one.
fn push_pairs<'a>(
    out: &mut Vec<Member<'a>>,
    members: &[Member<'a>],
    others: &[Member<'a>],
) -> Result<(), NoMemory>
    ensures { OnOk result
        (map sided_variable_of out.new.items ≡ map sided_variable_of out.old.items
        ++ with_partners (map sided_variable_of members.now) (map sided_variable_of others.now)) }
{
    for member in members {
        out.push(*member)?;
        push_partner(out, member.variable, others)?;
    }
    Ok(())
}

// Whether none of the others has the name and the sort of a variable.
fn is_alone(others: &[Member<'_>], member: &Member<'_>) -> bool
    ensures { result ≡ is_alone (map sided_variable_of others.now) (sided_variable_of member.now) }
{
    for other in others {
        if same_name_and_sort(member.variable, other.variable) {
            return false;
        }
    }
    true
}

// Adds the variables that have no partner.
fn push_others<'a>(
    out: &mut Vec<Member<'a>>,
    others: &[Member<'a>],
    members: &[Member<'a>],
) -> Result<(), NoMemory>
    ensures { OnOk result
        (map sided_variable_of out.new.items ≡ map sided_variable_of out.old.items
        ++ filter (is_alone (map sided_variable_of others.now)) (map sided_variable_of members.now)) }
{
    for member in members {
        if is_alone(others, member) {
            out.push(*member)?;
        }
    }
    Ok(())
}

/// The variables of the left side, each followed by its partner, then the others of the right side.
#[tactic(auto, using(crate::proofs::Lengths::length_all))]
pub fn all_members<'a>(
    alloc: Global,
    left: &'a [VarInfo],
    right: &'a [VarInfo],
) -> Result<Vec<Member<'a>>, NoMemory>
    requires left { length left.now < 2 ^ 32 }
    requires right { length right.now < 2 ^ 32 }
    ensures sided_variables { IfOk result (λ out. map sided_variable_of out.items ≡ all_sided_variables left.now right.now) }
    ensures short { IfOk result (λ out. length out.items ≤ 2 * length left.now + length right.now) }
{
    let lefts = members_of(alloc, Side::Left, left)?;
    let rights = members_of(alloc, Side::Right, right)?;
    let mut out = Vec::new(alloc);
    push_pairs(&mut out, lefts.as_slice(), rights.as_slice())?;
    push_others(&mut out, lefts.as_slice(), rights.as_slice())?;
    Ok(out)
}
