//! Certificates that are found beyond the search, and judged.

ghost use Rattle.std.specs.Prelude.{◌≡◌, ◌≤◌, None, map, IsTrue, IfOk, MatchOption};
ghost use Rattle.fs_pair.specs.Interfaces.{interface_fault};
ghost use Rattle.fs_pair.specs.Positions.{positions};
ghost use Rattle.sym_facts.specs.Starts.{start_fact};
ghost use Rattle.cert_model.specs.Lawful.{IsLawful};
ghost use Rattle.cert_model.specs.Obligations.{Yes, verdict};
ghost use Rattle.cert_model.specs.Sizes.{units_of};
ghost use Rattle.cert_model.specs.View.{node_of};
ghost use Rattle.search_tables.specs.SearchTables.{machines};
ghost use Rattle.search_laws.specs.Certificates.{IsCertificate};

use cert_check::verdict::Verdict;
use cert_check::verify::verify;
use cert_model::cert::Cert;
use cert_model::kept::certificates_are_normal;
use fs_ast::machine::Machine;
use fs_pair::positions::Pairing;
use nf_terms::stop::NoMemory;
use search_strengthening::by_cases::strengthen_by_cases;
use search_strengthening::strengthening::strengthen;
use std::alloc::Global;

// Whether the checker says yes: all obligations of the certificate hold. The one refusal is out of memory.
fn passes(
    alloc: Global,
    a: &Machine,
    b: &Machine,
    p: &Pairing,
    cert: &Cert,
) -> Result<bool, NoMemory>
    requires paired { p.now ≡ positions a.now b.now }
    requires interface { interface_fault a.now b.now ≡ None }
    requires lawful { IsLawful a.now b.now (map node_of cert.now.nodes.items) }
    ensures { IfOk result
        (λ passes. IsTrue passes → verdict a.now b.now (start_fact (positions a.now b.now))
        (map node_of cert.now.nodes.items) ≡ Yes) }
{
    match verify(alloc, a, b, p, cert)? {
        Verdict::Yes => Ok(true),
        Verdict::No { .. } | Verdict::Wide { .. } | Verdict::Large { .. } => Ok(false),
    }
}

// A certificate, where the checker says yes to it. The one refusal is out of memory.
fn keep_if_accepted(
    alloc: Global,
    a: &Machine,
    b: &Machine,
    p: &Pairing,
    cert: Cert,
) -> Result<Option<Cert>, NoMemory>
    requires paired { p.now ≡ positions a.now b.now }
    requires interface { interface_fault a.now b.now ≡ None }
    requires lawful { IsLawful a.now b.now (map node_of cert.nodes.items) }
    requires small { units_of (map node_of cert.nodes.items) ≤ 4000000 }
    ensures { IfOk result
        (λ kept. MatchOption kept (Unit {0}) (λ cert. IsCertificate (machines a.now b.now) (map node_of cert.nodes.items))) }
{
    let _left = a.vars(); // These two calls tell the proof that both machines are sound.
    let _right = b.vars();
    certificates_are_normal(&cert);
    if passes(alloc, a, b, p, &cert)? {
        Ok(Some(cert))
    } else {
        Ok(None)
    }
}

// A certificate of two machines by the second search, where the checker says yes to it. The one refusal is out of memory.
fn find_second(
    alloc: Global,
    a: &Machine,
    b: &Machine,
    p: &Pairing,
) -> Result<Option<Cert>, NoMemory>
    requires paired { p.now ≡ positions a.now b.now }
    requires interface { interface_fault a.now b.now ≡ None }
    ensures { IfOk result
        (λ found. MatchOption found (Unit {0}) (λ cert. IsCertificate (machines a.now b.now) (map node_of cert.nodes.items))) }
{
    match strengthen(alloc, a, b, p)? {
        Some(cert) => keep_if_accepted(alloc, a, b, p, cert),
        None => Ok(None),
    }
}

// A certificate of two machines by the third search, where the checker says yes to it. The one refusal is out of memory.
fn find_third(
    alloc: Global,
    a: &Machine,
    b: &Machine,
    p: &Pairing,
) -> Result<Option<Cert>, NoMemory>
    requires paired { p.now ≡ positions a.now b.now }
    requires interface { interface_fault a.now b.now ≡ None }
    ensures { IfOk result
        (λ found. MatchOption found (Unit {0}) (λ cert. IsCertificate (machines a.now b.now) (map node_of cert.nodes.items))) }
{
    match strengthen_by_cases(alloc, a, b, p)? {
        Some(cert) => keep_if_accepted(alloc, a, b, p, cert),
        None => Ok(None),
    }
}

/// A certificate of two machines by a second search or else by a third one, where the checker says yes to it. The one refusal is
/// out of memory.
pub fn find_beyond(
    alloc: Global,
    a: &Machine,
    b: &Machine,
    p: &Pairing,
) -> Result<Option<Cert>, NoMemory>
    requires paired { p.now ≡ positions a.now b.now }
    requires interface { interface_fault a.now b.now ≡ None }
    ensures { IfOk result
        (λ found. MatchOption found (Unit {0}) (λ cert. IsCertificate (machines a.now b.now) (map node_of cert.nodes.items))) }
{
    match find_second(alloc, a, b, p)? {
        Some(kept) => Ok(Some(kept)),
        None => find_third(alloc, a, b, p),
    }
}
