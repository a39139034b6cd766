//! Nodes.

ghost use Rattle.std.specs.Prelude.{◌≡◌, ◌≤◌, ◌+◌, [], true, false, codes, length, map, IfOk, OnOk};
ghost use Rattle.cert_values.specs.View.{view, items_view};
ghost use Rattle.cert_values.specs.Shape.{is_node, are_nodes, has_many_conditions, some_has_many};
ghost use Rattle.cert_model.specs.Lawful.{most_nodes, most_rank};
ghost use Rattle.cert_model.specs.View.{node_of};
ghost use Rattle.cert_facts.specs.JsonParts.{json_number as number_under, node_text_in, node_texts};
ghost use Rattle.cert_facts.specs.PartAnswers.{Tells};
ghost use Rattle.cert_text.specs.CertificateReading.{mode_named as mode_of, node_read, node_added, nodes_read};
ghost use Rattle.cert_terms.specs.Repeats.{AreLast};
ghost use Rattle.cert_text.specs.View.{context_in};
ghost use Rattle.cert_text.specs.Within.{IsNodeOf, AreNodesOf};

use crate::points::read_points;
use cert_bisimulation::mode::Mode;
use cert_facts::context::Context;
use cert_facts::fact::read_fact;
use cert_facts::faults::Stop;
use cert_facts::parts::{number_at, text_at};
use cert_model::cert::Node;
use cert_terms::repeats::{ReadText, none_read};
use cert_values::value::Value;
use std::alloc::Global;

// The mode of a text.
fn mode_named(text: &str) -> Mode
    ensures { result ≡ mode_of text.now }
{
    if text == "both" {
        Mode::Both
    } else if text == "left" {
        Mode::Left
    } else if text == "right" {
        Mode::Right
    } else {
        Mode::End
    }
}

// The rank of a node.
fn rank_of(value: &Value<'_>) -> u32
    requires { is_node (view value.now) ≡ true }
    ensures same { result ≡ number_under (codes "rank") (view value.now) }
    ensures low { result ≤ most_rank }
{
    number_at(value, "rank") as u32
}

// A node behind earlier ones.
#[tactic(auto, unfolding(crate::specs::CertificateReading::node_read))]
fn read_node(
    alloc: Global,
    c: &Context<'_, '_>,
    node: u32,
    earlier: &[Node],
    value: &Value<'_>,
    last: &mut Vec<Option<ReadText>>,
) -> Result<Node, Stop>
    requires pairing { c.now.pairing.now ≡ c.now.places.now.positions.now }
    requires shape { is_node (view value.now) ≡ true }
    requires few { has_many_conditions (view value.now) ≡ false }
    requires last { AreLast c.now.places.now last.old.items }
    ensures told { Tells node_of result
        (node_read (context_in c.now) node (map node_of earlier.now) (node_text_in (view value.now))) }
    ensures of { IfOk result (λ n. IsNodeOf c.now.a.now c.now.b.now c.now.places.now.positions.now (node_of n)) }
    ensures last { OnOk result (AreLast c.now.places.now last.new.items) }
{
    let (left, right) = read_points(
        c,
        node,
        earlier,
        text_at(value, "left").as_bytes(),
        text_at(value, "right").as_bytes(),
    )?;
    let fact = read_fact(alloc, c, node, value, last)?;
    Ok(Node {
        left,
        right,
        mode: mode_named(text_at(value, "mode")),
        rank: rank_of(value),
        fact,
    })
}

// Adds a node to earlier ones.
fn push_node(
    alloc: Global,
    c: &Context<'_, '_>,
    node: u32,
    nodes: &mut Vec<Node>,
    value: &Value<'_>,
    last: &mut Vec<Option<ReadText>>,
) -> Result<(), Stop>
    requires pairing { c.now.pairing.now ≡ c.now.places.now.positions.now }
    requires shape { is_node (view value.now) ≡ true }
    requires few { has_many_conditions (view value.now) ≡ false }
    requires last { AreLast c.now.places.now last.old.items }
    ensures told { Tells (λ _. map node_of nodes.new.items) result
        (node_added (context_in c.now) node (map node_of nodes.old.items) (node_text_in (view value.now))) }
    ensures lawful { OnOk result
        (AreNodesOf c.now.a.now c.now.b.now c.now.places.now.positions.now (map node_of nodes.old.items)
        → AreNodesOf c.now.a.now c.now.b.now c.now.places.now.positions.now (map node_of nodes.new.items)) }
    ensures count { OnOk result (length nodes.new.items ≡ length nodes.old.items + 1) }
    ensures last { OnOk result (AreLast c.now.places.now last.new.items) }
{
    let next = read_node(alloc, c, node, nodes.as_slice(), value, last)?;
    nodes.push(next)?;
    Ok(())
}

// Adds a node to earlier ones, and lets go of its value.
fn push_value(
    alloc: Global,
    c: &Context<'_, '_>,
    node: u32,
    nodes: &mut Vec<Node>,
    value: Value<'_>,
    last: &mut Vec<Option<ReadText>>,
) -> Result<(), Stop>
    requires pairing { c.now.pairing.now ≡ c.now.places.now.positions.now }
    requires shape { is_node (view value) ≡ true }
    requires few { has_many_conditions (view value) ≡ false }
    requires last { AreLast c.now.places.now last.old.items }
    ensures told { Tells (λ _. map node_of nodes.new.items) result
        (node_added (context_in c.now) node (map node_of nodes.old.items) (node_text_in (view value.entry))) }
    ensures lawful { OnOk result
        (AreNodesOf c.now.a.now c.now.b.now c.now.places.now.positions.now (map node_of nodes.old.items)
        → AreNodesOf c.now.a.now c.now.b.now c.now.places.now.positions.now (map node_of nodes.new.items)) }
    ensures count { OnOk result (length nodes.new.items ≡ length nodes.old.items + 1) }
    ensures last { OnOk result (AreLast c.now.places.now last.new.items) }
{
    let pushed = push_node(alloc, c, node, nodes, &value, last);
    drop(value);
    pushed
}

/// The nodes of a file, in order. Each value is let go when its node is read, so that values and nodes are never all there at
/// once.
pub fn read_nodes(
    alloc: Global,
    c: &Context<'_, '_>,
    values: Vec<Value<'_>>,
) -> Result<Vec<Node>, Stop>
    requires pairing { c.now.pairing.now ≡ c.now.places.now.positions.now }
    requires shape { are_nodes (items_view values.items) ≡ true }
    requires few { some_has_many (items_view values.items) ≡ false }
    requires count { length values.items ≤ most_nodes }
    ensures told { Tells (λ ns. map node_of ns.items) result
        (nodes_read (context_in c.now) 0 [] (node_texts (items_view values.entry.items))) }
    ensures of { IfOk result (λ ns. AreNodesOf c.now.a.now c.now.b.now c.now.places.now.positions.now (map node_of ns.items)) }
    ensures count { IfOk result (λ ns. length ns.items ≡ length values.entry.items) }
{
    let mut last = none_read(alloc, c.places)?;
    let mut nodes = Vec::new(alloc);
    let mut rest = values.into_iter();
    while let Some(value) = rest.next() {
        push_value(alloc, c, nodes.len() as u32, &mut nodes, value, &mut last)?;
    }
    Ok(nodes)
}
