//! What the names of a certificate stand for.

ghost use Rattle.std.specs.Prelude.{◌≡◌, ◌<◌, ◌≤◌, cond, [], length, map, IfOk, IfSome};
ghost use Rattle.fs_model.specs.Sides.{same_side};
ghost use Rattle.fs_model.specs.Limits.{most_states};
ghost use Rattle.fs_pair.specs.Partners.{variables_on as variables_of, position_name};
ghost use Rattle.sym_facts.specs.Facts.{sort_of_terms as sort_for_terms};
ghost use Rattle.cert_terms.specs.CertificateNames.{is_in_format as in_format, names_on as names_of};
ghost use Rattle.cert_terms.specs.CertificateNames.{machine_state_names as names_of_states, name_place, place_by_key};
ghost use Rattle.cert_terms.specs.View.{place_in_tables};

use crate::table::{NameTable, number_of};
use fs_ast::machine::Machine;
use fs_model::parts::{Sort, StateId, VarInfo};
use fs_pair::positions::Position;
use nf_terms::stop::NoMemory;
use nf_terms::symbols::Sort as TermSort;
use nf_terms::tree::{Pos, Side};
use std::alloc::Global;
use term_values::names::Names;

/// The places of the names of two machines among their positions, in a file of a format.
#[derive(Drop)]
pub struct Places<'a> {
    pub positions: &'a [Position],
    pub format: u64,
    pub left: NameTable<'a>,
    pub right: NameTable<'a>,
}

// The place of a name of a side.
fn place_named(places: &Places<'_>, side: Side, name: &[u8]) -> Option<u32>
    ensures { result ≡ place_in_tables places.now side name.now }
{
    match side {
        Side::Left => number_of(&places.left, name),
        Side::Right => number_of(&places.right, name),
    }
}

/// Whether a sort has positions in a file of a format: in format 1 a port is none.
pub fn is_in_format(format: u64, sort: Sort) -> bool
    ensures { result ≡ in_format format sort }
{
    match sort {
        Sort::Scalar | Sort::Array => true,
        Sort::Port => format != 1,
    }
}

// The place of a name of a side, in the format of the file.
fn place_of(places: &Places<'_>, side: Side, name: &[u8]) -> Option<u32>
    ensures same { result ≡ name_place (place_in_tables places.now) places.now.positions.now places.now.format side name.now }
    ensures in_range { IfSome result (λ k. k < length places.now.positions.now) }
{
    let place = place_named(places, side, name)?;
    let position = places.positions.get(place as usize)?;
    if is_in_format(places.format, position.sort) {
        Some(place)
    } else {
        None
    }
}

/// The place that a key names.
pub fn place_of_key(places: &Places<'_>, key: &[u8]) -> Option<u32>
    ensures same { result ≡ place_by_key
        (name_place (place_in_tables places.now) places.now.positions.now places.now.format) key.now }
    ensures in_range { IfSome result (λ k. k < length places.now.positions.now) }
{
    match key {
        [b'L', b'.', name @ ..] => place_of(places, Side::Left, name),
        [b'R', b'.', name @ ..] => place_of(places, Side::Right, name),
        _ => None,
    }
}

/// The sort of the terms of a position.
pub fn sort_of_terms(sort: Sort) -> TermSort
    ensures { result ≡ sort_for_terms sort }
{
    match sort {
        Sort::Scalar => TermSort::Scalar,
        Sort::Array => TermSort::Array,
        Sort::Port => TermSort::List,
    }
}

impl<'a> Names for Places<'a> {
    ghost use Rattle.cert_terms.specs.View.{find_of};

    ghost find = { find_of };

    fn find(&self, side: Side, name: &[u8]) -> Option<(Pos, TermSort)> {
        let place = place_of(self, side, name)?;
        let position = self.positions.get(place as usize)?;
        Some((position.pos, sort_of_terms(position.sort)))
    }
}

// The variables of a side.
fn variables_on<'a>(side: Side, a: &'a Machine, b: &'a Machine) -> &'a [VarInfo]
    ensures { result.now ≡ variables_of side a.now b.now }
{
    match side {
        Side::Left => a.vars(),
        Side::Right => b.vars(),
    }
}

// The name of a position.
fn name_at<'a>(a: &'a Machine, b: &'a Machine, pos: Pos) -> &'a [u8]
    ensures { result.now ≡ position_name a.now b.now pos }
{
    match variables_on(pos.side, a, b).get(pos.var as usize) {
        Some(variable) => variable.name.bytes(),
        None => b"",
    }
}

// The name of a position, empty where it is not on this side.
fn name_on<'a>(a: &'a Machine, b: &'a Machine, side: Side, pos: Pos) -> &'a [u8]
    ensures { result.now ≡ cond (same_side pos.side side) (position_name a.now b.now pos) [] }
{
    if pos.side == side {
        name_at(a, b, pos)
    } else {
        b""
    }
}

/// The names of one side along the positions, empty at those of the other side. The one refusal is out of memory.
pub fn names_on<'a>(
    alloc: Global,
    a: &'a Machine,
    b: &'a Machine,
    side: Side,
    positions: &[Position],
) -> Result<Vec<&'a [u8]>, NoMemory>
    ensures { IfOk result (λ out. map (λ n. n.now) out.items ≡ names_of a.now b.now side positions.now) }
{
    let mut out = Vec::new(alloc);
    for position in positions {
        out.push(name_on(a, b, side, position.pos))?;
    }
    Ok(out)
}

/// The names of states. The one refusal is out of memory.
#[tactic(auto, using(crate::proofs::NameTables::few_states))]
pub fn state_names<'a>(alloc: Global, m: &'a Machine) -> Result<Vec<&'a [u8]>, NoMemory>
    ensures same { IfOk result (λ out. map (λ n. n.now) out.items ≡ names_of_states m.now) }
    ensures few { IfOk result (λ out. length out.items ≤ most_states) }
{
    let mut out = Vec::new(alloc);
    for state in 0..m.state_count() {
        out.push(m.state_name(StateId(state)).bytes())?;
    }
    Ok(out)
}
