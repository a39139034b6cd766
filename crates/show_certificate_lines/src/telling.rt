//! What tells a node from the others at its points.

ghost use Rattle.std.specs.Prelude.{◌≡◌, ◌++◌, IfOk, OnOk, map};
ghost use Rattle.std.specs.List.{flat_map, list_any};
ghost use Rattle.std.specs.Str.{bytes_eq};
ghost use Rattle.nf_rel.specs.View.{literal_in};
ghost use Rattle.sym_facts.specs.View.{position_in};
ghost use Rattle.cert_model.specs.View.{node_of};
ghost use Rattle.show_fact_text.specs.FactLines.{position_line, condition_line};
ghost use Rattle.show_fact_text.specs.View.{side_names_in};
ghost use Rattle.show_certificate_lines.specs.Cases.{line_texts, is_shared, unless_shared, telling_lines};

use crate::cases::nodes_at;
use cert_model::cert::Node;
use nf_rel::literals::NLit;
use nf_terms::stop::NoMemory;
use show_fact_text::lines::{write_condition, write_position};
use show_fact_text::names::SideNames;
use std::alloc::Global;
use sym_facts::fact::{Fact, FactPosition};

fn position_text(
    alloc: Global,
    before: &[u8],
    names: &SideNames<'_>,
    position: &FactPosition,
) -> Result<Vec<u8>, NoMemory>
    ensures { IfOk result
        (λ text. text.items ≡ position_line before.now (side_names_in names.now) (position_in position.now)) }
{
    let mut text = Vec::new(alloc);
    write_position(&mut text, before, names, position)?;
    Ok(text)
}

fn condition_text(
    alloc: Global,
    before: &[u8],
    names: &SideNames<'_>,
    literal: &NLit,
) -> Result<Vec<u8>, NoMemory>
    ensures { IfOk result
        (λ text. text.items ≡ condition_line before.now (side_names_in names.now) (literal_in literal.now)) }
{
    let mut text = Vec::new(alloc);
    write_condition(&mut text, before, names, literal)?;
    Ok(text)
}

// Adds the lines of positions.
fn push_positions(
    alloc: Global,
    texts: &mut Vec<Vec<u8>>,
    before: &[u8],
    names: &SideNames<'_>,
    positions: &[FactPosition],
) -> Result<(), NoMemory>
    ensures { OnOk result (map (λ t. t.items) texts.new.items ≡ map (λ t. t.items) texts.old.items
        ++ map (position_line before.now (side_names_in names.now)) (map position_in positions.now)) }
{
    for position in positions {
        texts.push(position_text(alloc, before, names, position)?)?;
    }
    Ok(())
}

// Adds the lines of literals.
fn push_conditions(
    alloc: Global,
    texts: &mut Vec<Vec<u8>>,
    before: &[u8],
    names: &SideNames<'_>,
    literals: &[NLit],
) -> Result<(), NoMemory>
    ensures { OnOk result (map (λ t. t.items) texts.new.items ≡ map (λ t. t.items) texts.old.items
        ++ map (condition_line before.now (side_names_in names.now)) (map literal_in literals.now)) }
{
    for literal in literals {
        texts.push(condition_text(alloc, before, names, literal)?)?;
    }
    Ok(())
}

// The lines of a fact, each behind a text.
fn line_texts(
    alloc: Global,
    before: &[u8],
    names: &SideNames<'_>,
    fact: &Fact,
) -> Result<Vec<Vec<u8>>, NoMemory>
    ensures { IfOk result
        (λ texts. map (λ t. t.items) texts.items ≡ line_texts before.now (side_names_in names.now) fact.now) }
{
    let mut texts = Vec::new(alloc);
    push_positions(alloc, &mut texts, before, names, fact.positions())?;
    push_conditions(alloc, &mut texts, before, names, fact.conds())?;
    Ok(texts)
}

// The lines of the fact of each node.
fn lines_of_each(
    alloc: Global,
    before: &[u8],
    names: &SideNames<'_>,
    nodes: &[&Node],
) -> Result<Vec<Vec<Vec<u8>>>, NoMemory>
    ensures { IfOk result (λ facts. map (λ lines. map (λ t. t.items) lines.items) facts.items
        ≡ map (λ n. line_texts before.now (side_names_in names.now) n.fact) (map (λ n. node_of n.now) nodes.now)) }
{
    let mut facts = Vec::new(alloc);
    for node in nodes {
        facts.push(line_texts(alloc, before, names, &node.fact)?)?;
    }
    Ok(facts)
}

// Whether a line is among lines.
fn has_line(lines: &[Vec<u8>], line: &[u8]) -> bool
    ensures { result ≡ list_any (bytes_eq line.now) (map (λ t. t.items) lines.now) }
{
    for other in lines {
        if line == other.as_slice() {
            return true;
        }
    }
    false
}

// Whether each of these facts has a line.
fn is_shared(facts: &[Vec<Vec<u8>>], line: &[u8]) -> bool
    ensures { result ≡ is_shared (map (λ lines. map (λ t. t.items) lines.items) facts.now) line.now }
{
    for lines in facts {
        if !has_line(lines.as_slice(), line) {
            return false;
        }
    }
    true
}

// Adds a line that not all of these facts have.
fn write_unless_shared(
    out: &mut Vec<u8>,
    facts: &[Vec<Vec<u8>>],
    line: &[u8],
) -> Result<(), NoMemory>
    ensures { OnOk result (out.new.items ≡ out.old.items
        ++ unless_shared (map (λ lines. map (λ t. t.items) lines.items) facts.now) line.now) }
{
    if !is_shared(facts, line) {
        out.extend_from_slice(line)?;
    }
    Ok(())
}

// Adds those of the lines that not all of these facts have.
fn write_telling_among(
    out: &mut Vec<u8>,
    facts: &[Vec<Vec<u8>>],
    lines: &[Vec<u8>],
) -> Result<(), NoMemory>
    ensures { OnOk result (out.new.items ≡ out.old.items
        ++ flat_map (unless_shared (map (λ lines. map (λ t. t.items) lines.items) facts.now)) (map (λ t. t.items) lines.now)) }
{
    for line in lines {
        write_unless_shared(out, facts, line.as_slice())?;
    }
    Ok(())
}

/// Adds the lines of a node's fact that not all nodes at its points have. The one refusal is out of memory.
pub fn write_telling(
    alloc: Global,
    out: &mut Vec<u8>,
    names: &SideNames<'_>,
    nodes: &[Node],
    node: &Node,
) -> Result<(), NoMemory>
    ensures { OnOk result (out.new.items ≡ out.old.items
        ++ telling_lines (side_names_in names.now) (map node_of nodes.now) (node_of node.now)) }
{
    let others = nodes_at(alloc, nodes, node.left, node.right)?;
    let facts = lines_of_each(alloc, b"  case ", names, others.as_slice())?;
    let lines = line_texts(alloc, b"  case ", names, &node.fact)?;
    write_telling_among(out, facts.as_slice(), lines.as_slice())
}
