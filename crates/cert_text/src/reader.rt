//! Reading a certificate.

ghost use Rattle.std.specs.Prelude.{◌≡◌, ◌≤◌, ℕ, List, [], true, false, length, map, IfOk, IfErr};
ghost use Rattle.cert_values.specs.View.{view};
ghost use Rattle.fs_pair.specs.Positions.{positions};
ghost use Rattle.cert_model.specs.Lawful.{IsLawful, most_nodes};
ghost use Rattle.cert_model.specs.View.{node_of};
ghost use Rattle.cert_json.specs.Refusals.{IsShortFileOf, IsRefusedAsShape};
ghost use Rattle.cert_values.specs.Shape.{is_file, has_too_many};
ghost use Rattle.cert_terms.specs.CertificateNames.{state_named};
ghost use Rattle.cert_terms.specs.NameTables.{name_number};
ghost use Rattle.cert_facts.specs.JsonParts.{file_nodes};
ghost use Rattle.cert_text.specs.CertificateReading.{nodes_read};
ghost use Rattle.cert_text.specs.Refusals.{TellsNodes, SpellsNodes, IsRefusedAsCertificate};
ghost use Rattle.cert_text.specs.FileErrors.{error_of_file as error_from_file, error_of as error_from};
ghost use Rattle.cert_facts.specs.PartAnswers.{Tells};
ghost use Rattle.cert_text.specs.View.{context_in};
ghost use Rattle.cert_text.specs.Within.{AreNodesOf};

use crate::nodes::read_nodes;
use cert_facts::context::Context;
use cert_facts::faults::{CertError, Stop};
use cert_facts::parts::{number_at, take_items};
use cert_json::faults::FileError;
use cert_json::reader::{Room, read_file};
use cert_model::cert::Cert;
use cert_terms::name_places::{places_of, state_tables};
use cert_terms::table::NameTable;
use cert_values::value::Value;
use fs_ast::machine::Machine;
use fs_pair::positions::Pairing;
use std::alloc::Global;

// The certificate of a file, of which the nodes are taken out, over what it is read against.
#[tactic(auto, using(crate::proofs::Shapes::file_shapes))]
fn read_against(alloc: Global, c: &Context<'_, '_>, value: &mut Value<'_>) -> Result<Cert, Stop>
    requires pairing { c.now.pairing.now ≡ c.now.places.now.positions.now }
    requires shape { is_file (view value.old) ≡ true }
    requires few { has_too_many (view value.old) ≡ false }
    ensures told { Tells (λ cert. map node_of cert.nodes.items) result
        (nodes_read (context_in c.now) 0 [] (file_nodes (view value.old))) }
    ensures of { IfOk result
        (λ cert. AreNodesOf c.now.a.now c.now.b.now c.now.places.now.positions.now (map node_of cert.nodes.items)) }
    ensures few { IfOk result (λ cert. length cert.nodes.items ≤ most_nodes) }
{
    let nodes = read_nodes(alloc, c, take_items(alloc, value, "nodes"))?;
    Ok(Cert { nodes })
}

// The certificate of a file, of which the nodes are taken out, by the tables of the names of states.
fn read_by_states<'a>(
    alloc: Global,
    value: &mut Value<'_>,
    a: &'a Machine,
    b: &'a Machine,
    p: &'a Pairing,
    states: &(NameTable<'a>, NameTable<'a>),
) -> Result<Cert, Stop>
    requires pairing { p.now ≡ positions a.now b.now }
    requires left { (x : List ℕ) → name_number states.now.0 x ≡ state_named a.now x }
    requires right { (x : List ℕ) → name_number states.now.1 x ≡ state_named b.now x }
    requires shape { is_file (view value.old) ≡ true }
    requires few { has_too_many (view value.old) ≡ false }
    ensures told { TellsNodes a.now b.now (view value.old) result }
    ensures lawful { IfOk result (λ c. IsLawful a.now b.now (map node_of c.nodes.items)) }
{
    match places_of(alloc, a, b, p, number_at(value, "format")) {
        Ok(places) => {
            let context = Context {
                a,
                b,
                pairing: p,
                left_states: &states.0,
                right_states: &states.1,
                places: &places,
            };
            read_against(alloc, &context, value)
        }
        Err(_) => Err(Stop::NoMemory),
    }
}

// The certificate of a file, of which the nodes are taken out.
fn read_value<'a>(
    alloc: Global,
    value: &mut Value<'_>,
    a: &'a Machine,
    b: &'a Machine,
    p: &'a Pairing,
) -> Result<Cert, Stop>
    requires pairing { p.now ≡ positions a.now b.now }
    requires shape { is_file (view value.old) ≡ true }
    requires few { has_too_many (view value.old) ≡ false }
    ensures told { TellsNodes a.now b.now (view value.old) result }
    ensures lawful { IfOk result (λ c. IsLawful a.now b.now (map node_of c.nodes.items)) }
{
    match state_tables(alloc, a, b) {
        Ok(states) => read_by_states(alloc, value, a, b, p, &states),
        Err(_) => Err(Stop::NoMemory),
    }
}

// Why a file is refused before its nodes are looked at.
fn error_of_file(refused: FileError) -> CertError
    ensures { result ≡ error_from_file refused }
{
    match refused {
        FileError::NotJson => CertError::NotJson,
        FileError::Shape => CertError::Shape,
        FileError::TooMany => CertError::TooMany,
        FileError::NoMemory => CertError::NoMemory,
    }
}

// Why a file is refused for its nodes.
fn error_of(stop: Stop) -> CertError
    ensures { result ≡ error_from stop }
{
    match stop {
        Stop::Refused(error) => error,
        Stop::NoMemory => CertError::NoMemory,
    }
}

// The certificate of the value of a file, or why the file is refused: what is told holds of any bytes that have the value.
#[tactic(auto, using(crate::proofs::ShortFiles::spelled))]
fn cert_of(
    alloc: Global,
    file: Result<Value<'_>, FileError>,
    a: &Machine,
    b: &Machine,
    p: &Pairing,
) -> Result<Cert, CertError>
    requires pairing { p.now ≡ positions a.now b.now }
    requires shape { IfOk file (λ v. is_file (view v) ≡ true) }
    requires few { IfOk file (λ v. has_too_many (view v) ≡ false) }
    ensures spelled { IfOk result (λ c. (bytes : List ℕ) → IfOk file.entry (λ v. IsShortFileOf bytes (view v))
        → SpellsNodes a.now b.now bytes (map node_of c.nodes.items)) }
    ensures lawful { IfOk result (λ c. IsLawful a.now b.now (map node_of c.nodes.items)) }
    ensures refused { IfErr result (λ e. (bytes : List ℕ) → IfOk file.entry (λ v. IsShortFileOf bytes (view v))
        → IfErr file.entry (IsRefusedAsShape bytes) → IsRefusedAsCertificate a.now b.now bytes e) }
{
    let mut value = match file {
        Ok(value) => value,
        Err(refused) => return Err(error_of_file(refused)),
    };
    p.holds();
    match read_value(alloc, &mut value, a, b, p) {
        Ok(cert) => Ok(cert),
        Err(stop) => Err(error_of(stop)),
    }
}

/// The certificate of two machines that bytes spell. It is lawful for them.
///
/// The first rule that is broken is refused. First the whole file is looked at: `NotJson` where the bytes are not JSON as
/// `serde_json` reads it, `Shape` where the value does not have the form of a certificate, `TooMany` where there are more
/// than 4,096 nodes or 64 conditions in a node. Then, for each node in order: `UnknownState` for its left and then for its
/// right point, `NotCutpoint` for the left and then for the right, `TwiceNode`, which is none in format 4; for each equation
/// in byte order of the keys `UnknownName` where the key names no position, and then what is wrong with its term; what is
/// wrong with each condition in order; and `NotSolved` with the place of the first position that has an equation and is
/// mentioned. Of a term or a condition the first of these counts: `BadTerm`, `NumberTooBig`, `UnknownName`, `SortOf`,
/// `NotNormal`. In a file of format 1 a port is no position, and its equation is the empty list. Of equal keys the last
/// counts. `NoMemory` may come at any time.
pub fn read_cert(
    alloc: Global,
    bytes: &[u8],
    a: &Machine,
    b: &Machine,
    p: &Pairing,
) -> Result<Cert, CertError>
    requires { p.now ≡ positions a.now b.now }
    ensures spelled { IfOk result (λ c. SpellsNodes a.now b.now bytes.now (map node_of c.nodes.items)) }
    ensures lawful { IfOk result (λ c. IsLawful a.now b.now (map node_of c.nodes.items)) }
    ensures refused { IfErr result (λ e. IsRefusedAsCertificate a.now b.now bytes.now e) }
{
    let mut room = Room::new(alloc);
    let file = read_file(alloc, bytes, &mut room);
    cert_of(alloc, file, a, b, p)
}

/// The same, with the same refusals, of bytes that are let go then.
pub fn read_owned_cert(
    alloc: Global,
    bytes: Vec<u8>,
    a: &Machine,
    b: &Machine,
    p: &Pairing,
) -> Result<Cert, CertError>
    requires { p.now ≡ positions a.now b.now }
    ensures spelled { IfOk result (λ c. SpellsNodes a.now b.now bytes.items (map node_of c.nodes.items)) }
    ensures lawful { IfOk result (λ c. IsLawful a.now b.now (map node_of c.nodes.items)) }
    ensures refused { IfErr result (λ e. IsRefusedAsCertificate a.now b.now bytes.items e) }
{
    let read = read_cert(alloc, bytes.as_slice(), a, b, p);
    drop(bytes);
    read
}
