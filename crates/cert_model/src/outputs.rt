//! Whether the outputs of two machines have the same forms over a vector.

ghost use Rattle.std.specs.Prelude.{◌≡◌, ◌≤◌, length, IfOk};
ghost use Rattle.std.specs.List.{position_from};
ghost use Rattle.std.specs.Str.{bytes_eq};
ghost use Rattle.fs_model.specs.Limits.{most_variables};
ghost use Rattle.fs_model.specs.Runs.{is_output};
ghost use Rattle.nf_terms.specs.Forms.{same_form};
ghost use Rattle.nf_terms.specs.declared.form.Nf.TheVariants.{Num, Arr, Seq};
ghost use Rattle.nf_vectors.specs.Vectors.{number_at, array_form, list_at};
ghost use Rattle.cert_model.specs.Obligations.{same_forms};

use fs_model::name::Name;
use fs_model::parts::{Role, Sort, VarInfo};
use nf_terms::stop::NoMemory;
use nf_terms::tree::{Pos, Side};
use nf_vectors::vector::Vector;
use std::alloc::Global;

// Whether the numbers of two positions are the same.
fn same_numbers(alloc: Global, v: &Vector, p: Pos, q: Pos) -> Result<bool, NoMemory>
    ensures { IfOk result (λ same. same ≡ same_form (Num (number_at v.now p)) (Num (number_at v.now q))) }
{
    let left = v.number(alloc, &p)?;
    let right = v.number(alloc, &q)?;
    Ok(left == right)
}

// Whether the arrays of two positions are the same.
fn same_arrays(alloc: Global, v: &Vector, p: Pos, q: Pos) -> Result<bool, NoMemory>
    ensures { IfOk result (λ same. same ≡ same_form (Arr (array_form v.now p)) (Arr (array_form v.now q))) }
{
    let left = v.array(alloc, &p)?;
    let right = v.array(alloc, &q)?;
    Ok(left == right)
}

// Whether the lists of two positions are the same.
fn same_lists(alloc: Global, v: &Vector, p: Pos, q: Pos) -> Result<bool, NoMemory>
    ensures { IfOk result (λ same. same ≡ same_form (Seq (list_at v.now p)) (Seq (list_at v.now q))) }
{
    let left = v.list(alloc, &p)?;
    let right = v.list(alloc, &q)?;
    Ok(left == right)
}

/// Whether a left variable and a right one of its sort have the same form over a vector; not where there is no right one. The one
/// refusal is out of memory.
pub fn same_forms(
    alloc: Global,
    v: &Vector,
    sort: Sort,
    left: u32,
    right: Option<u32>,
) -> Result<bool, NoMemory>
    ensures { IfOk result (λ same. same ≡ same_forms v.now sort left right) }
{
    let p = Pos {
        side: Side::Left,
        var: left,
    };
    let q = match right {
        Some(right) => Pos {
            side: Side::Right,
            var: right,
        },
        None => return Ok(false),
    };
    match sort {
        Sort::Scalar => same_numbers(alloc, v, p, q),
        Sort::Array => same_arrays(alloc, v, p, q),
        Sort::Port => same_lists(alloc, v, p, q),
    }
}

/// The number of the first variable of a name.
pub fn number_of(vars: &[VarInfo], name: &Name) -> Option<u32>
    requires { length vars.now ≤ most_variables }
    ensures { result ≡ position_from (λ u. bytes_eq u.name name.now) 0 vars.now }
{
    for (number, variable) in vars.iter().enumerate() {
        if variable.name == *name {
            return Some(number as u32);
        }
    }
    None
}

/// Whether a variable of the role is an output.
pub fn is_output(role: Role) -> bool
    ensures { result ≡ is_output role }
{
    match role {
        Role::Output => true,
        Role::Input | Role::Local => false,
    }
}
