//! The points of nodes.

ghost use Rattle.std.specs.Prelude.{◌≡◌, true, option_map, map, IfOk};
ghost use Rattle.std.specs.List.{list_any};
ghost use Rattle.fs_cut.specs.Paths.{is_point};
ghost use Rattle.fs_cut.specs.View.{point_of};
ghost use Rattle.cert_model.specs.View.{node_of};
ghost use Rattle.cert_facts.specs.PartAnswers.{Tells};
ghost use Rattle.cert_terms.specs.NameTables.{name_number};
ghost use Rattle.cert_text.specs.NodePointNames.{point_named as named, known_point as known, cut_point as cut};
ghost use Rattle.cert_text.specs.NodePointNames.{node_is_at as stands_at, may_share_points, points_if_free, points_read};
ghost use Rattle.cert_text.specs.View.{states_in};

use cert_facts::context::Context;
use cert_facts::faults::{CertError, Stop};
use cert_model::cert::Node;
use cert_terms::table::{NameTable, number_of};
use fs_ast::machine::Machine;
use fs_cut::cover::Point;
use fs_cut::points::is_point;
use fs_model::parts::StateId;

// The point of a text, if there is one.
fn point_named(states: &NameTable<'_>, text: &[u8]) -> Option<Point>
    ensures { option_map point_of result ≡ named (name_number states.now) text.now }
{
    if text == b"start".as_slice() {
        return Some(Point::Start);
    }
    if text == b"done".as_slice() {
        return Some(Point::Done);
    }
    match number_of(states, text) {
        Some(state) => Some(Point::At(StateId(state))),
        None => None,
    }
}

// The point of a text of a node.
fn known_point(node: u32, states: &NameTable<'_>, text: &[u8]) -> Result<Point, Stop>
    ensures { Tells point_of result (known node (named (name_number states.now) text.now)) }
{
    match point_named(states, text) {
        Some(point) => Ok(point),
        None => Err(Stop::Refused(CertError::UnknownState { node })),
    }
}

// Refuses a node at a state at which paths are not cut.
fn cut_point(node: u32, m: &Machine, point: Point) -> Result<Point, Stop>
    ensures same { Tells point_of result (cut node m.now (point_of point)) }
    ensures point { IfOk result (λ P. is_point m.now (point_of point) ≡ true) }
{
    if is_point(m, point) {
        Ok(point)
    } else {
        Err(Stop::Refused(CertError::NotCutpoint { node }))
    }
}

// Whether a node stands at two points.
fn is_at(left: Point, right: Point, node: &Node) -> bool
    ensures { result ≡ stands_at (point_of left) (point_of right) (node_of node.now) }
{
    node.left.is_same(left) && node.right.is_same(right)
}

// Whether one of the nodes stands at two points.
fn is_taken(left: Point, right: Point, nodes: &[Node]) -> bool
    ensures { result ≡ list_any (stands_at (point_of left) (point_of right)) (map node_of nodes.now) }
{
    for node in nodes {
        if is_at(left, right, node) {
            return true;
        }
    }
    false
}

// Whether two nodes may stand at the same points in a file of a format.
fn may_share_points(format: u64) -> bool
    ensures { result ≡ may_share_points format }
{
    format == 4
}

// Refuses a node at points at which an earlier one stands, where that may not be in a file of the format.
fn free_points(
    node: u32,
    format: u64,
    earlier: &[Node],
    left: Point,
    right: Point,
) -> Result<(Point, Point), Stop>
    ensures told { Tells (λ P. (point_of P.0, point_of P.1)) result
        (points_if_free node format (map node_of earlier.now) (point_of left) (point_of right)) }
    ensures same { IfOk result (λ P. P ≡ (left, right)) }
{
    if !may_share_points(format) && is_taken(left, right, earlier) {
        return Err(Stop::Refused(CertError::TwiceNode { node }));
    }
    Ok((left, right))
}

/// The points of a node behind earlier ones.
#[tactic(auto, unfolding(crate::specs::NodePointNames::points_read))]
pub fn read_points(
    c: &Context<'_, '_>,
    node: u32,
    earlier: &[Node],
    left: &[u8],
    right: &[u8],
) -> Result<(Point, Point), Stop>
    ensures told { Tells (λ P. (point_of P.0, point_of P.1)) result
        (points_read node c.now.places.now.format (states_in c.now) (map node_of earlier.now) left.now right.now) }
    ensures left { IfOk result (λ P. is_point c.now.a.now (point_of P.0) ≡ true) }
    ensures right { IfOk result (λ P. is_point c.now.b.now (point_of P.1) ≡ true) }
{
    let first = known_point(node, c.left_states, left)?;
    let second = known_point(node, c.right_states, right)?;
    let first = cut_point(node, c.a, first)?;
    let second = cut_point(node, c.b, second)?;
    free_points(node, c.places.format, earlier, first, second)
}
