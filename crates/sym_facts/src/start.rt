//! The fact on the two start stores.

ghost use Rattle.std.specs.Prelude.{◌≡◌, map, option_map, IfOk};
ghost use Rattle.sym_facts.specs.Facts.{own_symbol as symbol_of};
ghost use Rattle.sym_facts.specs.Starts.{zero_of, start_form as started_form, partner_in, start_position as started_position};
ghost use Rattle.sym_facts.specs.Starts.{start_fact as started};
ghost use Rattle.sym_facts.specs.View.{position_in};

use crate::fact::{Fact, FactPosition, own_symbol};
use crate::parts::shared_equation;
use fs_model::parts::{Role, Sort};
use fs_pair::positions::{Pairing, Position};
use nf_terms::arr::Arr;
use nf_terms::form::Nf;
use nf_terms::poly::Poly;
use nf_terms::seq::Seq;
use nf_terms::stop::NoMemory;
use nf_terms::tree::SeqBase;
use nf_trees::tree::{Base, Side};
use std::alloc::Global;

// 0, 0 everywhere, or the empty list.
fn zero(alloc: Global, sort: Sort) -> Result<Nf, NoMemory>
    ensures { IfOk result (λ f. f ≡ zero_of sort) }
{
    match sort {
        Sort::Scalar => Ok(Nf::Num(Poly::number(alloc, 0)?)),
        Sort::Array => Ok(Nf::Arr(Arr::bare(alloc, Base::Zero))),
        Sort::Port => Ok(Nf::Seq(Seq::bare(alloc, SeqBase::Empty))),
    }
}

// The symbol of the partner of a position, if it has one.
fn partner_symbol(
    alloc: Global,
    positions: &[Position],
    p: &Position,
) -> Result<Option<Nf>, NoMemory>
    ensures { IfOk result (λ f. f ≡ option_map (symbol_of p.now.sort) (partner_in positions.now p.now.partner)) }
{
    let Some(place) = p.partner else {
        return Ok(None);
    };
    match positions.get(place as usize) {
        Some(partner) => Ok(Some(own_symbol(alloc, p.sort, partner.pos)?)),
        None => Ok(None),
    }
}

// The equation of a position on the start stores, or none.
fn start_form(alloc: Global, positions: &[Position], p: &Position) -> Result<Option<Nf>, NoMemory>
    ensures { IfOk result (λ f. f ≡ started_form p.now.role p.now.pos.side p.now.sort (partner_in positions.now p.now.partner)) }
{
    match p.role {
        Role::Input => match p.pos.side {
            Side::Left => Ok(None),
            Side::Right => partner_symbol(alloc, positions, p),
        },
        Role::Output | Role::Local => Ok(Some(zero(alloc, p.sort)?)),
    }
}

// A position with its equation on the start stores.
fn start_position(
    alloc: Global,
    positions: &[Position],
    p: &Position,
) -> Result<FactPosition, NoMemory>
    ensures { IfOk result (λ q. position_in q ≡ started_position positions.now p.now) }
{
    Ok(FactPosition {
        pos: p.pos,
        sort: p.sort,
        equation: shared_equation(alloc, start_form(alloc, positions, p)?)?,
    })
}

// All positions with their equations on the start stores.
fn start_positions(alloc: Global, positions: &[Position]) -> Result<Vec<FactPosition>, NoMemory>
    ensures { IfOk result (λ out. map position_in out.items ≡ map (started_position positions.now) positions.now) }
{
    let mut out = Vec::new(alloc);
    for p in positions {
        out.push(start_position(alloc, positions, p)?)?;
    }
    Ok(out)
}

/// The fact on the start stores of two machines: a left input is free and the right one of its name is equal to it, and every
/// other scalar is 0, every other array 0 everywhere, and every port empty. The one refusal is out of memory.
#[tactic(auto, using(crate::proofs::Kept::start_kept))]
pub fn start_fact(alloc: Global, p: &Pairing) -> Result<Fact, NoMemory>
    ensures { IfOk result (λ f. f ≡ started p.now) }
{
    p.holds();
    let positions = start_positions(alloc, p.positions())?;
    Ok(Fact::of(positions, Vec::new(alloc)))
}
