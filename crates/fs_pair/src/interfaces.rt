//! Whether two machines have the same inputs and outputs.

ghost use Rattle.std.specs.Prelude.{◌≡◌, option_map};
ghost use Rattle.fs_pair.specs.Interfaces.{is_interface, same_role, same_sort, variable_named, lacks_match, first_unmatched};

use fs_model::name::Name;
use fs_model::parts::{Role, Sort, VarInfo};

/// Whether a variable of the role is an input or an output.
pub fn is_interface(role: Role) -> bool
    ensures { result ≡ is_interface role }
{
    match role {
        Role::Input | Role::Output => true,
        Role::Local => false,
    }
}

/// Whether two roles are one.
pub fn same_role(left: Role, right: Role) -> bool
    ensures { result ≡ same_role left right }
{
    left == right
}

/// Whether two sorts are one.
pub fn same_sort(left: Sort, right: Sort) -> bool
    ensures { result ≡ same_sort left right }
{
    left == right
}

/// The first variable of a name.
pub fn find_variable<'a>(vars: &'a [VarInfo], name: &Name) -> Option<&'a VarInfo>
    ensures { option_map (λ v. v.now) result ≡ variable_named vars.now name.now }
{
    for variable in vars {
        if variable.name == *name {
            return Some(variable);
        }
    }
    None
}

/// Whether an input or output is absent from the others, or has another role or sort there.
pub fn lacks_match(others: &[VarInfo], variable: &VarInfo) -> bool
    ensures { result ≡ lacks_match others.now variable.now }
{
    if !is_interface(variable.role) {
        return false;
    }
    match find_variable(others, &variable.name) {
        Some(other) => {
            !(same_role(variable.role, other.role) && same_sort(variable.sort, other.sort))
        }
        None => true,
    }
}

/// The name of the first input or output without match among the others.
pub fn first_unmatched<'a>(vars: &'a [VarInfo], others: &[VarInfo]) -> Option<&'a Name>
    ensures { option_map (λ n. n.now) result ≡ first_unmatched vars.now others.now }
{
    for variable in vars {
        if lacks_match(others, variable) {
            return Some(&variable.name);
        }
    }
    None
}
