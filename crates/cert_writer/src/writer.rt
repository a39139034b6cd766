//! The text of a certificate.

ghost use Rattle.std.specs.Prelude.{◌≡◌, ◌≤◌, length, map, IfOk};
ghost use Rattle.std.specs.List.{list_any, AllByRecursion};
ghost use Rattle.fs_model.specs.Runs.{is_port};
ghost use Rattle.fs_model.specs.SoundMachines.{IsSound};
ghost use Rattle.serde_json.specs.View.{view};
ghost use Rattle.fs_pair.specs.Positions.{positions};
ghost use Rattle.cert_model.specs.Lawful.{IsLawful, points_differ};
ghost use Rattle.cert_model.specs.View.{node_of};
ghost use Rattle.cert_json.specs.Refusals.{IsFileOf};
ghost use Rattle.cert_writer.specs.WrittenCertificates.{needed_format as format_by, file_written, certificate_text};
ghost use Rattle.cert_writer.specs.CertificateLimits.{most_bytes};
ghost use Rattle.cert_model.specs.Kept.{HasNormalFact};

use crate::names::MachineNames;
use crate::nodes::nodes_value;
use crate::written::file_value;
use cert_model::cert::{Cert, Node};
use cert_model::lawful_nodes::points_differ;
use fs_ast::machine::Machine;
use fs_model::parts::Sort;
use fs_pair::positions::{Pairing, Position};
use nf_terms::stop::NoMemory;
use serde_json::Value;
use std::alloc::Global;

// Whether one of the positions is a port.
fn has_port(positions: &[Position]) -> bool
    ensures { result ≡ list_any (λ p. is_port p.sort) positions.now }
{
    for position in positions {
        if matches!(position.sort, Sort::Port) {
            return true;
        }
    }
    false
}

// The format of a certificate with these nodes for machines with these positions.
fn format_of(positions: &[Position], nodes: &[Node]) -> u64
    ensures { result ≡ format_by (points_differ (map node_of nodes.now)) positions.now }
{
    if !points_differ(nodes) {
        return 4;
    }
    if has_port(positions) { 2 } else { 1 }
}

// A certificate of two machines as JSON.
fn value_of<'a>(
    alloc: Global,
    c: &Cert,
    a: &'a Machine,
    b: &'a Machine,
    p: &Pairing,
) -> Result<Value, NoMemory>
    requires { IsLawful a.now b.now (map node_of c.now.nodes.items) }
    ensures written { IfOk result (λ v. view v ≡ file_written a.now b.now p.now (map node_of c.now.nodes.items)) }
    ensures kept { IfOk result (λ v. AllByRecursion HasNormalFact (map node_of c.now.nodes.items)) }
    ensures left { IsSound a.now }
    ensures right { IsSound b.now }
{
    let names = MachineNames { a, b };
    names.hold();
    let nodes = nodes_value(alloc, &names, c.nodes.as_slice())?;
    let format = format_of(p.positions(), c.nodes.as_slice());
    let value = file_value(alloc, format, nodes)?;
    Ok(value)
}

/// The bytes of a lawful certificate of two machines: compact JSON with keys in byte order. It has format 4 exactly where two
/// nodes stand at the same points, and else format 2 exactly where a machine declares a port. The time is linear in the bytes,
/// and quadratic in the number of nodes. The one refusal is out of memory.
pub fn write_cert(
    alloc: Global,
    c: &Cert,
    a: &Machine,
    b: &Machine,
    p: &Pairing,
) -> Result<Vec<u8>, NoMemory>
    requires paired { p.now ≡ positions a.now b.now }
    requires lawful { IsLawful a.now b.now (map node_of c.now.nodes.items) }
    ensures bytes { IfOk result (λ v. v.items ≡ certificate_text a.now b.now (map node_of c.now.nodes.items)) }
    ensures file { IfOk result
        (λ v. IsFileOf v.items (file_written a.now b.now (positions a.now b.now) (map node_of c.now.nodes.items))) }
    ensures short { IfOk result (λ v. length v.items ≤ most_bytes (map node_of c.now.nodes.items)) }
{
    let value = value_of(alloc, c, a, b, p)?;
    let bytes = value.to_vec(alloc)?;
    Ok(bytes)
}
