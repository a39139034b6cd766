//! The table of two machines, from that of the same machines exchanged.

use crate::nodes::ClaimedNode;
use cert_bisimulation::mode::Mode;
use fs_pair::positions::{Pairing, Position};
use nf_rel::literals::NLit;
use nf_substitution::subst::Subst;
use nf_substitution::vector::Vector;
use nf_terms::form::Nf;
use nf_terms::stop::NoMemory;
use nf_terms::tree::{Pos, Side};
use search_strengthening_claims::stop::unless_stopped;
use search_strengthening_claims::tested_facts::tested_fact;
use std::alloc::Global;
use sym_facts::entailment::{substitute, substitute_literal};
use sym_facts::fact::{Fact, FactPosition, own_symbol};

// The position of the same variable where the machines are exchanged.
fn exchange_position(pos: Pos) -> Pos {
    let side = match pos.side {
        Side::Left => Side::Right,
        Side::Right => Side::Left,
    };
    Pos { side, var: pos.var }
}

// The mode in which the same machines move where they are exchanged.
fn exchange_mode(mode: Mode) -> Mode {
    match mode {
        Mode::Left => Mode::Right,
        Mode::Right => Mode::Left,
        Mode::Both | Mode::End => mode,
    }
}

// The vector that gives each position the symbol of the same variable where the machines are exchanged.
fn exchanging_vector(alloc: Global, positions: &[FactPosition]) -> Result<Vector, NoMemory> {
    let mut symbols = Vector::new(alloc);
    for position in positions {
        let symbol = own_symbol(alloc, position.sort, exchange_position(position.pos))?;
        symbols.put(position.pos, symbol)?;
    }
    Ok(symbols)
}

// The equation that a position has as the same variable of exchanged machines.
fn form_there<'f>(positions: &'f [FactPosition], position: &Position) -> Option<&'f Nf> {
    let there = exchange_position(position.pos);
    for other in positions {
        if other.pos == there {
            return other.form();
        }
    }
    None
}

// The equations of positions, by those of exchanged machines. None where one meets a limit.
fn exchange_equations(
    alloc: Global,
    s: &mut Subst<'_>,
    fact: &Fact,
    positions: &[Position],
) -> Result<Option<Vec<Option<Nf>>>, NoMemory> {
    let mut out = Vec::new(alloc);
    for position in positions {
        match form_there(fact.positions(), position) {
            Some(form) => match unless_stopped(substitute(alloc, s, form))? {
                Some(value) => out.push(Some(value))?,
                None => return Ok(None),
            },
            None => out.push(None)?,
        }
    }
    Ok(Some(out))
}

// The literals, by those of exchanged machines. None where one meets a limit.
fn exchange_literals(
    alloc: Global,
    s: &mut Subst<'_>,
    literals: &[NLit],
) -> Result<Option<Vec<NLit>>, NoMemory> {
    let mut out = Vec::new(alloc);
    for literal in literals {
        match unless_stopped(substitute_literal(alloc, s, literal))? {
            Some(value) => out.push(value)?,
            None => return Ok(None),
        }
    }
    Ok(Some(out))
}

// The fact, by that of exchanged machines. None where a term meets a limit, or what is made is no fact.
fn exchange_fact(alloc: Global, p: &Pairing, fact: &Fact) -> Result<Option<Fact>, NoMemory> {
    let symbols = exchanging_vector(alloc, fact.positions())?;
    let mut s = Subst::new(alloc, &symbols);
    let Some(equations) = exchange_equations(alloc, &mut s, fact, p.positions())? else {
        return Ok(None);
    };
    let Some(literals) = exchange_literals(alloc, &mut s, fact.conds())? else {
        return Ok(None);
    };
    tested_fact(alloc, p, equations, literals)
}

// Exchanges the sides of a node. Answers whether its fact could be made anew.
fn exchange_node(alloc: Global, p: &Pairing, node: &mut ClaimedNode) -> Result<bool, NoMemory> {
    let Some(fact) = exchange_fact(alloc, p, &node.fact)? else {
        return Ok(false);
    };
    node.fact = fact;
    (node.left, node.right) = (node.right, node.left);
    node.mode = match node.mode {
        Some(mode) => Some(exchange_mode(mode)),
        None => None,
    };
    Ok(true)
}

/// Exchanges the sides of nodes, whose facts are made anew for a pairing of the machines the other way round: terms have another
/// normal form there. Answers whether that could be done: no term meets a limit. The one refusal is out of memory.
pub fn exchange_sides(
    alloc: Global,
    p: &Pairing,
    nodes: &mut [ClaimedNode],
) -> Result<bool, NoMemory> {
    for node in nodes.iter_mut() {
        if !exchange_node(alloc, p, node)? {
            return Ok(false);
        }
    }
    Ok(true)
}
