//! Laws of certificates and of closed searches, over the definitions alone. The functions do nothing: those that they call are
//! laws.

ghost use Rattle.std.specs.Prelude.{◌≤◌, List, length};
ghost use Rattle.fs_model.specs.Machines.{Fsmd};
ghost use Rattle.cert_bisimulation.specs.Tables.{Node};
ghost use Rattle.sym_facts.specs.Facts.{Fact};
ghost use Rattle.cert_model.specs.Lawful.{IsLawful};
ghost use Rattle.cert_writer.specs.CertificateLimits.{most_certificate_bytes};
ghost use Rattle.cert_writer.specs.WrittenCertificates.{certificate_text};
ghost use Rattle.cert_text.specs.Refusals.{SpellsNodes};
ghost use Rattle.search_tables.specs.SearchTables.{machines};
ghost use Rattle.search.specs.SearchOutcomes.{IsClosedWith};
ghost use Rattle.search_laws.specs.Certificates.{IsCertificate};

use crate::certificate_laws::{texts_of_certificates_are_files, written_certificates_are_read};

/// The text of a certificate that holds has at most 268,435,456 bytes: it has at most 4,096 nodes and 4,000,000 units, and a node
/// at most 256 equations.
pub fn certificates_that_hold_are_small()
    ensures { (a b : Fsmd) (nodes : List (Node Fact)) → IsCertificate (machines a b) nodes
        → length (certificate_text a b nodes) ≤ most_certificate_bytes }
{
    texts_of_certificates_are_files();
}

/// The text of a certificate that holds spells its nodes, which are a lawful certificate of the two machines.
pub fn written_certificates_that_hold_are_read()
    ensures spelled { (a b : Fsmd) (nodes : List (Node Fact)) → IsCertificate (machines a b) nodes
        → SpellsNodes a b (certificate_text a b nodes) nodes }
    ensures lawful { (a b : Fsmd) (nodes : List (Node Fact)) → IsCertificate (machines a b) nodes → IsLawful a b nodes }
{
    texts_of_certificates_are_files();
    written_certificates_are_read();
}

/// The certificate of a closed search holds.
pub fn certificates_of_closed_searches_hold()
    ensures { (a b : Fsmd) (nodes : List (Node Fact)) → IsClosedWith (machines a b) nodes → IsCertificate (machines a b) nodes }
{}

/// The text of the certificate of a closed search has at most 268,435,456 bytes: the table has at most 4,096 nodes and 4,000,000
/// units, and a node at most 256 equations.
pub fn certificates_of_closed_searches_are_small()
    ensures { (a b : Fsmd) (nodes : List (Node Fact)) → IsClosedWith (machines a b) nodes
        → length (certificate_text a b nodes) ≤ most_certificate_bytes }
{
    texts_of_certificates_are_files();
}

/// The text of the certificate of a closed search spells its nodes, which are a lawful certificate of the two machines.
pub fn written_certificates_of_closed_searches_are_read()
    ensures spelled { (a b : Fsmd) (nodes : List (Node Fact)) → IsClosedWith (machines a b) nodes
        → SpellsNodes a b (certificate_text a b nodes) nodes }
    ensures lawful { (a b : Fsmd) (nodes : List (Node Fact)) → IsClosedWith (machines a b) nodes → IsLawful a b nodes }
{
    texts_of_certificates_are_files();
    written_certificates_are_read();
}
