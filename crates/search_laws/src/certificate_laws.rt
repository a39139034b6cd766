//! Laws of certificates and of their texts. The functions do nothing.

ghost use Rattle.std.specs.Prelude.{◌≡◌, ◌≤◌, ◌↔◌, ℕ, List, length};
ghost use Rattle.std.specs.List.{AllByRecursion};
ghost use Rattle.fs_model.specs.SoundMachines.{IsSound};
ghost use Rattle.fs_model.specs.Machines.{Fsmd};
ghost use Rattle.fs_pair.specs.Positions.{positions};
ghost use Rattle.cert_bisimulation.specs.Tables.{Node};
ghost use Rattle.sym_facts.specs.Facts.{Fact};
ghost use Rattle.cert_model.specs.declared.reason.Reason.{Reason};
ghost use Rattle.cert_model.specs.Lawful.{IsLawful};
ghost use Rattle.cert_model.specs.Obligations.{Yes, No, IsWide, IsLarge, obligations, verdict};
ghost use Rattle.cert_json.specs.Refusals.{IsFileOf};
ghost use Rattle.cert_writer.specs.CertificateLimits.{most_bytes};
ghost use Rattle.cert_writer.specs.WrittenCertificates.{file_written, certificate_text};
ghost use Rattle.cert_text.specs.Refusals.{SpellsNodes};
ghost use Rattle.cert_model.specs.Kept.{AreNormal};
ghost use Rattle.search_laws.specs.Deciding.{IsFulfilled, FailsFor, IsWideEvent, IsLargeEvent, IsDecidedFirst};

use term_writer::laws::{
    written_literals_are_spelled, written_literals_mean_themselves, written_terms_are_spelled,
    written_terms_mean_themselves,
};

/// The text of a lawful certificate of two machines whose facts are in normal form is JSON of the file that is written of it, and
/// has at most 64 bytes, 200 more for each node, 44 for each equation and 47 for each unit.
pub fn texts_of_certificates_are_files()
    ensures file { (a b : Fsmd) (ns : List (Node Fact)) → IsSound a → IsSound b → IsLawful a b ns → AreNormal ns
        → IsFileOf (certificate_text a b ns) (file_written a b (positions a b) ns) }
    ensures short { (a b : Fsmd) (ns : List (Node Fact)) → IsSound a → IsSound b → IsLawful a b ns → AreNormal ns
        → length (certificate_text a b ns) ≤ most_bytes ns }
{}

/// The file that is written of the nodes of a lawful certificate of two machines spells these nodes.
pub fn written_certificates_are_read()
    ensures { (a b : Fsmd) → (bytes : List ℕ) → (ns : List (Node Fact)) → IsSound a → IsSound b → IsLawful a b ns → AreNormal ns
        → IsFileOf bytes (file_written a b (positions a b) ns) → SpellsNodes a b bytes ns }
{
    written_terms_are_spelled();
    written_terms_mean_themselves();
    written_literals_are_spelled();
    written_literals_mean_themselves();
}

/// The verdict on nodes is yes exactly where all obligations hold. Else it is that of the first obligation that does not hold,
/// with its number, counted from 1: no, where it fails, with the reason; wide or large, where it meets such an event.
pub fn verdicts_are_of_the_first_that_decides()
    ensures yes { (a b : Fsmd) (start : Fact) (ns : List (Node Fact))
        → (verdict a b start ns ≡ Yes) ↔ AllByRecursion IsFulfilled (obligations a b start ns) }
    ensures no { (a b : Fsmd) (start : Fact) (ns : List (Node Fact)) (k : ℕ) (r : Reason)
        → (verdict a b start ns ≡ No k r) ↔ IsDecidedFirst (obligations a b start ns) k (FailsFor r) }
    ensures wide { (a b : Fsmd) (start : Fact) (ns : List (Node Fact)) (k : ℕ)
        → (verdict a b start ns ≡ IsWide k) ↔ IsDecidedFirst (obligations a b start ns) k IsWideEvent }
    ensures large { (a b : Fsmd) (start : Fact) (ns : List (Node Fact)) (k : ℕ)
        → (verdict a b start ns ≡ IsLarge k) ↔ IsDecidedFirst (obligations a b start ns) k IsLargeEvent }
{}
