//! What the types of certificates promise.

ghost use Rattle.std.specs.Prelude.{map};
ghost use Rattle.std.specs.List.{AllByRecursion};
ghost use Rattle.sym_facts.specs.View.{position_in};
ghost use Rattle.cert_model.specs.View.{node_of};
ghost use Rattle.cert_model.specs.Kept.{AreNormal, IsNormalEquation, HasNormalFact};

use crate::cert::{Cert, Node};
use sym_facts::fact::FactPosition;

// The equation of a position is in normal form.
fn equation_is_normal(position: &FactPosition)
    ensures { IsNormalEquation (position_in position.now).equation }
{
    match &position.equation {
        Some(shared) => {
            let _sort = shared.sort(); // The call tells the proof that the form is normal.
        }
        None => {}
    }
}

// The equations of positions are in normal form.
fn equations_are_normal(positions: &[FactPosition])
    ensures { AllByRecursion (λ q. IsNormalEquation q.equation) (map position_in positions.now) }
{
    for position in positions {
        equation_is_normal(position);
    }
}

// The fact of a node is one, and its equations are in normal form.
fn node_is_kept(node: &Node)
    ensures { HasNormalFact (node_of node.now) }
{
    node.fact.holds();
    equations_are_normal(node.fact.positions());
}

/// The facts of each certificate are in normal form. Nothing is changed; the time is linear in the number of positions of the
/// nodes.
pub fn certificates_are_normal(c: &Cert)
    ensures { AreNormal (map node_of c.now.nodes.items) }
{
    for node in c.nodes.as_slice() {
        node_is_kept(node);
    }
}
