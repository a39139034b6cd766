//! A certificate, written and read.

ghost use Rattle.std.specs.Prelude.{◌≡◌, map, IfOk, IfErr};
ghost use Rattle.fs_pair.specs.Positions.{positions};
ghost use Rattle.cert_model.specs.Lawful.{IsLawful};
ghost use Rattle.cert_model.specs.View.{node_of};
ghost use Rattle.cert_facts.specs.declared.faults.CertError.TheVariants.{NoMemory as OutOfMemory};

use crate::certificate_laws::written_certificates_are_read;
use cert_model::cert::Cert;
use cert_model::kept::certificates_are_normal;
use cert_text::faults::CertError;
use cert_text::laws::certificates_are_read_in_one_way;
use cert_text::reader::read_cert;
use cert_writer::writer::write_cert;
use fs_ast::machine::Machine;
use fs_pair::positions::Pairing;
use std::alloc::Global;

/// What is read of the bytes that a lawful certificate is written as: the same nodes. `NoMemory`, out of memory, is the one
/// refusal.
pub fn read_again(
    alloc: Global,
    c: &Cert,
    a: &Machine,
    b: &Machine,
    p: &Pairing,
) -> Result<Cert, CertError>
    requires paired { p.now ≡ positions a.now b.now }
    requires lawful { IsLawful a.now b.now (map node_of c.now.nodes.items) }
    ensures same { IfOk result (λ d. map node_of d.nodes.items ≡ map node_of c.now.nodes.items) }
    ensures refused { IfErr result (λ e. e ≡ OutOfMemory) }
{
    certificates_are_normal(c);
    certificates_are_read_in_one_way();
    written_certificates_are_read();
    let _left = a.vars(); // These two calls tell the proof that both machines are sound.
    let _right = b.vars();
    let bytes = match write_cert(alloc, c, a, b, p) {
        Ok(bytes) => bytes,
        Err(_refused) => return Err(CertError::NoMemory),
    };
    read_cert(alloc, &bytes, a, b, p)
}
