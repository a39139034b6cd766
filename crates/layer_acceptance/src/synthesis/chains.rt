//! Chains that grow link by link.

use crate::machines::reading::machine;
use cert_check::verdict::Verdict;
use cert_model::reason::Reason;
use cert_text::reader::read_cert;
use fs_ast::machine::Machine;
use fs_pair::positions::same_interface;
use hls_shrink::{Chain, ChainStop};
use std::alloc::Global;

// A chain with a machine behind it, by a certificate as a text, or why that machine is not added. Nothing where the interfaces
// are not the same or the text is no certificate.
fn with_machine(
    alloc: Global,
    chain: Chain,
    next: Machine,
    cert: &str,
) -> Option<Result<Chain, ChainStop>> {
    let Ok(pairing) = same_interface(alloc, chain.last(), &next) else {
        return None;
    };
    match read_cert(alloc, cert.as_bytes(), chain.last(), &next, &pairing) {
        Ok(cert) => Some(chain.add(alloc, next, &pairing, &cert)),
        Err(_) => None,
    }
}

// The same of the machine of a text, and nothing where the text has none.
fn with_machine_of(
    alloc: Global,
    chain: Chain,
    next: &str,
    cert: &str,
) -> Option<Result<Chain, ChainStop>> {
    let next = machine(alloc, next).ok()?;
    with_machine(alloc, chain, next, cert)
}

// How many states the last machine of a chain has, where the machines are added.
fn count(link: Option<Result<Chain, ChainStop>>) -> Option<u32> {
    let chain = link?.ok()?;
    Some(chain.last().state_count())
}

// The square of a sum, in two steps.
const SUM: &str = "fsmd 1; input a, b; output y; local t; reset s0;
state s0: goto s1: t = a + b;
state s1: goto s0: y = t * t;";

const PRODUCTS: &str = "fsmd 1; input a, b; output y; reset q0;
state q0: goto q0: y = a * a + 2 * a * b + b * b;";

const STEPS: &str = "fsmd 1; input a, b; output y; local t; reset p0;
state p0: goto p1: t = b + a;
state p1: goto p2: t = t * t;
state p2: goto p0: y = t;";

const SUM_TO_PRODUCTS: &str = "{\"format\": 1, \"nodes\": [
{\"left\": \"start\", \"right\": \"start\", \"mode\": \"both\", \"rank\": 0, \"conds\": [],
 \"equations\": {\"L.t\": \"0\", \"L.y\": \"0\", \"R.a\": \"L.a\", \"R.b\": \"L.b\", \"R.y\": \"0\"}},
{\"left\": \"done\", \"right\": \"done\", \"mode\": \"end\", \"rank\": 0, \"conds\": [], \"equations\": {\"R.y\": \"L.y\"}}]}";

const PRODUCTS_TO_STEPS: &str = "{\"format\": 1, \"nodes\": [
{\"left\": \"start\", \"right\": \"start\", \"mode\": \"both\", \"rank\": 0, \"conds\": [],
 \"equations\": {\"L.y\": \"0\", \"R.a\": \"L.a\", \"R.b\": \"L.b\", \"R.t\": \"0\", \"R.y\": \"0\"}},
{\"left\": \"done\", \"right\": \"done\", \"mode\": \"end\", \"rank\": 0, \"conds\": [], \"equations\": {\"R.y\": \"L.y\"}}]}";

const LACKS_B: &str = "{\"format\": 1, \"nodes\": [
{\"left\": \"start\", \"right\": \"start\", \"mode\": \"both\", \"rank\": 0, \"conds\": [],
 \"equations\": {\"L.y\": \"0\", \"R.a\": \"L.a\", \"R.t\": \"0\", \"R.y\": \"0\"}},
{\"left\": \"done\", \"right\": \"done\", \"mode\": \"end\", \"rank\": 0, \"conds\": [], \"equations\": {\"R.y\": \"L.y\"}}]}";

// The chain of the first machine.
fn no_link(alloc: Global) -> Option<Result<Chain, ChainStop>> {
    let first = machine(alloc, SUM).ok()?;
    Some(Ok(Chain::new(alloc, first).ok()?))
}

// The chain of the first two machines.
fn first_link(alloc: Global) -> Option<Result<Chain, ChainStop>> {
    with_machine_of(alloc, no_link(alloc)?.ok()?, PRODUCTS, SUM_TO_PRODUCTS)
}

// The chain of three machines by this certificate, or why the third one is not added.
fn second_link(alloc: Global, cert: &str) -> Option<Result<Chain, ChainStop>> {
    with_machine_of(alloc, first_link(alloc)?.ok()?, STEPS, cert)
}

// Whether a link is refused since obligation 3 fails at the equation of place 5.
fn lacks_an_equation(link: Option<Result<Chain, ChainStop>>) -> bool {
    match link {
        Some(Err(ChainStop::Verdict(Verdict::No { obligation, reason }))) => {
            obligation == 3 && matches!(reason, Reason::Equation { place: 5 })
        }
        _ => false,
    }
}

// With none, one and two links, and with an obligation that fails: the third obligation is the move from the start. The positions
// are L.a, R.a, L.b, R.b, L.y, R.y and R.t.
#[test]
fn links(rt: HostRuntime) {
    assert!(rt; count(no_link(rt.alloc())) == Some(2), "no link");
    assert!(rt; count(first_link(rt.alloc())) == Some(1), "one link");
    assert!(rt;
        count(second_link(rt.alloc(), PRODUCTS_TO_STEPS)) == Some(3),
        "two links"
    );
    assert!(rt;
        lacks_an_equation(second_link(rt.alloc(), LACKS_B)),
        "a link that fails"
    );
}
