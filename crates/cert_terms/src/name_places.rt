//! The tables of the names of two machines.

ghost use Rattle.std.specs.Prelude.{◌≡◌, ℕ, List, IfOk};
ghost use Rattle.fs_model.specs.declared.sides.Side.TheVariants.{Left, Right};
ghost use Rattle.cert_terms.specs.CertificateNames.{state_named, place_named};
ghost use Rattle.cert_terms.specs.NameTables.{name_number};

use crate::names::{Places, names_on, state_names};
use crate::table::{NameTable, table_of};
use fs_ast::machine::Machine;
use fs_pair::positions::Pairing;
use nf_terms::stop::NoMemory;
use nf_terms::tree::Side;
use std::alloc::Global;

// The table of the states of a machine. The one refusal is out of memory.
#[tactic(auto, using(crate::proofs::NameTables::states_found))]
fn states_of<'a>(alloc: Global, m: &'a Machine) -> Result<NameTable<'a>, NoMemory>
    ensures { IfOk result (λ t. (x : List ℕ) → name_number t x ≡ state_named m.now x) }
{
    let names = state_names(alloc, m)?;
    table_of(alloc, names.as_slice())
}

// The table of the positions of a side. The one refusal is out of memory.
#[tactic(auto, using(crate::proofs::NameTables::positions_found, crate::proofs::NameTables::few_names))]
fn positions_of<'a>(
    alloc: Global,
    a: &'a Machine,
    b: &'a Machine,
    side: Side,
    p: &Pairing,
) -> Result<NameTable<'a>, NoMemory>
    ensures { IfOk result (λ t. (x : List ℕ) → name_number t x ≡ place_named a.now b.now p.now side x) }
{
    p.holds();
    let names = names_on(alloc, a, b, side, p.positions())?;
    table_of(alloc, names.as_slice())
}

/// The tables of the states of two machines. The one refusal is out of memory.
pub fn state_tables<'a>(
    alloc: Global,
    a: &'a Machine,
    b: &'a Machine,
) -> Result<(NameTable<'a>, NameTable<'a>), NoMemory>
    ensures left { IfOk result (λ t. (x : List ℕ) → name_number t.0 x ≡ state_named a.now x) }
    ensures right { IfOk result (λ t. (x : List ℕ) → name_number t.1 x ≡ state_named b.now x) }
{
    let left = states_of(alloc, a)?;
    Ok((left, states_of(alloc, b)?))
}

/// The places of the names of two machines, in a file of a format. The one refusal is out of memory.
pub fn places_of<'a>(
    alloc: Global,
    a: &'a Machine,
    b: &'a Machine,
    p: &'a Pairing,
    format: u64,
) -> Result<Places<'a>, NoMemory>
    ensures positions { IfOk result (λ t. t.positions.now ≡ p.now) }
    ensures format { IfOk result (λ t. t.format ≡ format) }
    ensures left { IfOk result (λ t. (x : List ℕ) → name_number t.left x ≡ place_named a.now b.now p.now Left x) }
    ensures right { IfOk result (λ t. (x : List ℕ) → name_number t.right x ≡ place_named a.now b.now p.now Right x) }
{
    let left = positions_of(alloc, a, b, Side::Left, p)?;
    let right = positions_of(alloc, a, b, Side::Right, p)?;
    Ok(Places {
        positions: p.positions(),
        format,
        left,
        right,
    })
}
