//! Laws of the texts of certificates. The functions do nothing.

ghost use Rattle.std.specs.Prelude.{◌≡◌, ℕ, List};
ghost use Rattle.fs_model.specs.Machines.{Fsmd};
ghost use Rattle.cert_bisimulation.specs.Tables.{Node};
ghost use Rattle.sym_facts.specs.Facts.{Fact};
ghost use Rattle.term_values.specs.NameMeanings.{Find};
ghost use Rattle.cert_terms.specs.TextMeanings.{AreRead};
ghost use Rattle.cert_terms.specs.TextFunctions.{meanings_by};
ghost use Rattle.cert_text.specs.Refusals.{SpellsNodes, IsRefusedAsCertificate};
ghost use Rattle.cert_facts.specs.declared.faults.CertError.{CertError};
ghost use Rattle.cert_facts.specs.declared.faults.CertError.TheVariants as errors;

/// There are functions that say of each text what its grammar says: what speaks of all such functions speaks of some.
pub fn texts_are_read()
    ensures { (find : Find) → AreRead find (meanings_by find) }
{}

/// Bytes spell at most one list of nodes. Where they spell one, they are refused for memory alone.
pub fn certificates_are_read_in_one_way()
    ensures same { (a b : Fsmd) → (bytes : List ℕ) → (ns ms : List (Node Fact)) → SpellsNodes a b bytes ns
        → SpellsNodes a b bytes ms → ns ≡ ms }
    ensures taken { (a b : Fsmd) → (bytes : List ℕ) → (ns : List (Node Fact)) → (e : CertError) → SpellsNodes a b bytes ns
        → IsRefusedAsCertificate a b bytes e → e ≡ errors.NoMemory }
{}
