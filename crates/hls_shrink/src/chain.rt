//! Chains of machines with the same behaviour.

ghost use Rattle.std.specs.Prelude.{◌≡◌, map, IfOk, None};
ghost use Rattle.std.specs.Result.{OnOk, IfErr};
ghost use Rattle.fs_model.specs.Runs.{SameBehaviour};
ghost use Rattle.fs_pair.specs.Interfaces.{interface_fault};
ghost use Rattle.fs_pair.specs.Positions.{positions};
ghost use Rattle.cert_model.specs.Lawful.{IsLawful};
ghost use Rattle.cert_model.specs.Obligations.{Yes, verdict_on};
ghost use Rattle.cert_model.specs.View.{node_of};
ghost use Rattle.cert_check.specs.View.{verdict_in};
ghost use Rattle.cert_check.specs.declared.verdict.Verdict.TheVariants.{Yes as Holds};
ghost use Rattle.hls_shrink.specs.ChainStops.{IsStopOf, HoldOn, StopsOn};

use cert_check::verdict::Verdict;
use cert_check::verify::verify;
use cert_model::cert::Cert;
use fs_ast::machine::Machine;
use fs_model::laws::{same_behaviour_is_reflexive, same_behaviour_is_transitive};
use fs_pair::positions::Pairing;
use fs_stores::memory::NoMemory;
use nf_terms::stop::NoMemory as NoRoom;
use std::alloc::Global;
use std::marker::Model;

/// A chain of machines: its first machine and its last one, which have the same behaviour. Those between them are not kept.
#[derive(Drop)]
pub struct Chain {
    first: Machine,
    last: Machine,
}

impl Model for Chain {
    ghost use Rattle.fs_model.specs.Runs.{SameBehaviour};
    ghost use Rattle.hls_shrink.specs.Chains.{ChainEnds, coded_ends};

    ghost Value = { ChainEnds };

    ghost coded = { coded_ends };

    ghost view = { λ c. record { first = c.first; last = c.last } };

    ghost invariant = { λ c. SameBehaviour c.first c.last };
}

/// Why a machine is not added to a chain.
#[derive(Clone, Copy)]
pub enum ChainStop {
    /// The checker says this of the certificate, which is not yes.
    Verdict(Verdict),
    /// Out of memory.
    NoMemory,
}

impl From<NoRoom> for ChainStop {
    ghost use Rattle.hls_shrink.specs.declared.chain.ChainStop.TheVariants as stops;

    ghost from_gives = { λ _ stop. stop ≡ stops.NoMemory };

    fn from(_refused: NoRoom) -> ChainStop {
        ChainStop::NoMemory
    }
}

impl Chain {
    /// The chain of one machine, which is copied: the machine is its first and its last one. The only refusal is out of memory.
    pub fn new(alloc: Global, first: Machine) -> Result<Chain, NoMemory>
        ensures first { IfOk result (λ chain. chain.first ≡ first) }
        ensures last { IfOk result (λ chain. chain.last ≡ first) }
    {
        same_behaviour_is_reflexive();
        let last = first.try_clone(alloc)?;
        Ok(Chain { first, last })
    }

    /// The last machine, which has the behaviour of the first one. Takes no memory.
    pub fn last(&self) -> &Machine
        ensures last { result.now ≡ self.now.last }
        ensures same { SameBehaviour self.now.first self.now.last }
    {
        &self.last
    }

    /// The chain with one machine more behind its last one, by a lawful certificate of these two.
    ///
    /// `Verdict` comes exactly where the checker's verdict on the certificate is not yes, with that verdict. The one other
    /// refusal is out of memory. After a refusal the chain and the machine are gone. The cost is that of one check of the
    /// certificate, whatever the length of the chain; two machines are kept.
    pub fn add(
        self,
        alloc: Global,
        next: Machine,
        p: &Pairing,
        c: &Cert,
    ) -> Result<Chain, ChainStop>
        requires paired { p.now ≡ positions self.last next }
        requires interface { interface_fault self.last next ≡ None }
        requires lawful { IsLawful self.last next (map node_of c.now.nodes.items) }
        ensures first { IfOk result (λ chain. chain.first ≡ self.first) }
        ensures last { IfOk result (λ chain. chain.last ≡ next) }
        ensures holds { OnOk result (verdict_on self.last next (map node_of c.now.nodes.items) ≡ Yes) }
        ensures verdict { IfErr result (IsStopOf (verdict_on self.last next (map node_of c.now.nodes.items))) }
    {
        let Chain { first, last } = self;
        judge_link(alloc, &last, &next, p, c)?;
        same_behaviour_is_transitive();
        Ok(Chain { first, last: next })
    }
}

// Whether the checker says yes to a certificate of two machines; where it does not, the stop that tells its verdict.
fn check_link(
    alloc: Global,
    last: &Machine,
    next: &Machine,
    p: &Pairing,
    c: &Cert,
) -> Result<(), ChainStop>
    requires paired { p.now ≡ positions last.now next.now }
    requires interface { interface_fault last.now next.now ≡ None }
    requires lawful { IsLawful last.now next.now (map node_of c.now.nodes.items) }
    ensures holds { OnOk result (verdict_on last.now next.now (map node_of c.now.nodes.items) ≡ Yes) }
    ensures same { OnOk result (SameBehaviour last.now next.now) }
    ensures stop { IfErr result (IsStopOf (verdict_on last.now next.now (map node_of c.now.nodes.items))) }
{
    where_yes(verify(alloc, last, next, p, c)?)
}

// The same, said by names that do not unfold, since a caller that owns the machines need not read what a verdict is.
fn judge_link(
    alloc: Global,
    last: &Machine,
    next: &Machine,
    p: &Pairing,
    c: &Cert,
) -> Result<(), ChainStop>
    requires paired { p.now ≡ positions last.now next.now }
    requires interface { interface_fault last.now next.now ≡ None }
    requires lawful { IsLawful last.now next.now (map node_of c.now.nodes.items) }
    ensures holds { OnOk result (HoldOn last.now next.now (map node_of c.now.nodes.items)) }
    ensures same { OnOk result (SameBehaviour last.now next.now) }
    ensures stop { IfErr result (StopsOn last.now next.now (map node_of c.now.nodes.items)) }
{
    check_link(alloc, last, next, p, c)
}

// Where a verdict is not yes, the stop that tells it.
fn where_yes(verdict: Verdict) -> Result<(), ChainStop>
    ensures yes { OnOk result (verdict ≡ Holds) }
    ensures stop { IfErr result (IsStopOf (verdict_in verdict)) }
{
    match verdict {
        Verdict::Yes => Ok(()),
        _ => Err(ChainStop::Verdict(verdict)),
    }
}
