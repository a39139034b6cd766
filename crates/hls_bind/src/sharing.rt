//! Which locals of a binding have one register.

ghost use Rattle.std.specs.Prelude.{◌≡◌, map, IfOk};
ghost use Rattle.fs_variable_sets.specs.Sets.{has_variable};
ghost use Rattle.hls_bind.specs.BindingEntries.{binding_entry};
ghost use Rattle.hls_bind.specs.Shared.{shares, others_in};

use crate::binding::BoundLocal;
use fs_model::name::NoMemory;
use fs_variable_sets::VariableSet;
use std::alloc::Global;

/// The entries of a binding, and for each the other locals that have its register.
#[derive(Drop)]
pub struct Sharing<'a> {
    pub entries: &'a [BoundLocal],
    pub others: &'a [VariableSet],
    ghost shared: { map has_variable others.now ≡ map (others_in (map binding_entry entries.now))
        (map binding_entry entries.now) },
}

// Whether another local has the same register.
fn shares(one: &BoundLocal, other: &BoundLocal) -> bool
    ensures { result ≡ shares (binding_entry one.now) (binding_entry other.now) }
{
    other.local != one.local && other.register == one.register
}

// The other locals that have the register of one.
fn others_in(all: &[BoundLocal], one: &BoundLocal) -> VariableSet
    ensures { has_variable result ≡ others_in (map binding_entry all.now) (binding_entry one.now) }
{
    let mut set = VariableSet::empty();
    for other in all {
        if shares(one, other) {
            set = set.with(other.local);
        }
    }
    set
}

/// For each entry the other locals that have its register. The one refusal is out of memory.
pub fn others_of_each(alloc: Global, all: &[BoundLocal]) -> Result<Vec<VariableSet>, NoMemory>
    ensures { IfOk result
        (λ out. map has_variable out.items ≡ map (others_in (map binding_entry all.now)) (map binding_entry all.now)) }
{
    let mut out = Vec::new(alloc);
    for one in all {
        out.push(others_in(all, one))?;
    }
    Ok(out)
}
