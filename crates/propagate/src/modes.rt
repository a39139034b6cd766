//! Which machines move at a node.

ghost use Rattle.std.specs.Prelude.{◌≡◌, ◌++◌, IsTrue, map, IfOk};
ghost use Rattle.fs_cut.specs.Paths.{is_point};
ghost use Rattle.fs_cut.specs.Paths as paths;
ghost use Rattle.fs_cut.specs.Covers.{cover_of};
ghost use Rattle.fs_cut.specs.View.{point_of, path_of};
ghost use Rattle.nf_terms.specs.Computed.{Answers};
ghost use Rattle.nf_rel.specs.Literals.{is_refuted as refuted};
ghost use Rattle.nf_rel.specs.View.{literal_in};
ghost use Rattle.sym_facts.specs.Facts.{vector_of};
ghost use Rattle.fs_model.specs.declared.sides.Side.TheVariants as side;
ghost use Rattle.propagate.specs.Modes.{traced_then, Found};
ghost use Rattle.propagate.specs.Modes.{is_open_path as is_open_under, count_from, mode_of_counts as mode_of_numbers, mode_of};
ghost use Rattle.propagate.specs.View.{Traces};

use cert_bisimulation::mode::Mode;
use fs_cut::cover::{Cover, Path, Point};
use fs_cut::machine::Machine;
use nf_refutation::refutation::is_refuted;
use nf_rel::literals::NLit;
use nf_substitution::vector::Vector;
use nf_terms::stop::{NfStop, NoMemory};
use nf_terms::tree::Side;
use std::alloc::Global;
use sym_facts::fact::{Fact, copied_literals};
use sym_paths::execution::conditions;

/// Why a mode is not found: the stop of the conditions of the path by this branch of this side's point. Where memory
/// was refused the side and the branch say nothing.
#[derive(Clone, Copy)]
pub struct ModeStop {
    pub stop: NfStop,
    pub side: Side,
    pub branch: u32,
}

impl From<NoMemory> for ModeStop {
    ghost use Rattle.nf_terms.specs.declared.stop.NfStop.TheVariants.{NoMemory as OutOfMemory};

    ghost from_gives = { λ _ s. s.stop ≡ OutOfMemory };

    fn from(_refused: NoMemory) -> ModeStop {
        ModeStop {
            stop: NfStop::NoMemory,
            side: Side::Left,
            branch: 0,
        }
    }
}

// Whether literals are refuted behind those of a fact. They are moved. The one refusal is out of memory.
#[tactic(auto, using(crate::proofs::Behind::literals_behind))]
fn is_refuted_behind(alloc: Global, fact: &Fact, others: &mut Vec<NLit>) -> Result<bool, NoMemory>
    ensures { IfOk result (λ b. b ≡ refuted (fact.now.literals ++ map literal_in others.old.items)) }
{
    let mut literals = copied_literals(alloc, fact.conds())?;
    literals.append(others)?;
    is_refuted(alloc, &literals)
}

// Whether a path is not refuted under a fact with this vector.
fn is_open(
    alloc: Global,
    m: &Machine,
    side: Side,
    fact: &Fact,
    v: &Vector,
    path: &Path,
) -> Result<bool, NfStop>
    requires { v.now ≡ vector_of fact.now.positions }
    ensures { Answers result (is_open_under m.now side fact.now (path_of path.now)) }
{
    let mut others = conditions(alloc, m, path, side, v)?;
    Ok(!is_refuted_behind(alloc, fact, &mut others)?)
}

// How many paths are not refuted under a fact with this vector.
fn count_open(
    alloc: Global,
    m: &Machine,
    side: Side,
    fact: &Fact,
    v: &Vector,
    paths: &[Path],
) -> Result<usize, ModeStop>
    requires { v.now ≡ vector_of fact.now.positions }
    ensures { Traces result (count_from m.now side fact.now (map path_of paths.now) 0) }
{
    let mut count = 0;
    for path in paths {
        match is_open(alloc, m, side, fact, v, path) {
            Ok(true) => count += 1,
            Ok(false) => {}
            Err(stop) => {
                return Err(ModeStop {
                    stop,
                    side,
                    branch: path.branch,
                });
            }
        }
    }
    Ok(count)
}

// A machine that has one way on at most moves alone where the other has more.
fn mode_of_counts(left: usize, right: usize) -> Mode
    ensures { result ≡ mode_of_numbers left right }
{
    if left <= 1 {
        if right <= 1 { Mode::Both } else { Mode::Left }
    } else {
        if right <= 1 { Mode::Right } else { Mode::Both }
    }
}

// The mode of two points at which neither machine is done, by their paths, under a fact with this vector.
fn mode_by_paths(
    alloc: Global,
    a: &Machine,
    b: &Machine,
    fact: &Fact,
    v: &Vector,
    lefts: &[Path],
    rights: &[Path],
) -> Result<Mode, ModeStop>
    requires { v.now ≡ vector_of fact.now.positions }
    ensures { Traces result
        (traced_then (count_from a.now side.Left fact.now (map path_of lefts.now) 0)
        (λ n. traced_then (count_from b.now side.Right fact.now (map path_of rights.now) 0) (λ k. Found (mode_of_numbers n k)))) }
{
    let left_count = count_open(alloc, a, Side::Left, fact, v, lefts)?;
    let right_count = count_open(alloc, b, Side::Right, fact, v, rights)?;
    Ok(mode_of_counts(left_count, right_count))
}

/// The mode of two points under a fact: a machine that is done does not move, and where one of the two has at most one path that
/// is not refuted under the fact and the other has more, the one moves alone. Else both move.
///
/// A stop comes exactly at the first operation that is not narrow, or narrow and not small, in the conditions of the left paths
/// in order of branches, and then of the right ones; it names the path. `NoMemory`: out of memory.
#[tactic(auto, using(fs_cut::proofs::Listed::paths_listed))]
pub fn mode(
    alloc: Global,
    a: &Machine,
    b: &Machine,
    ca: &Cover,
    cb: &Cover,
    fact: &Fact,
    left: Point,
    right: Point,
) -> Result<Mode, ModeStop>
    requires left_cover { ca.now ≡ cover_of a.now }
    requires right_cover { cb.now ≡ cover_of b.now }
    requires left_point { IsTrue (is_point a.now (point_of left)) }
    requires right_point { IsTrue (is_point b.now (point_of right)) }
    ensures { Traces result (mode_of a.now b.now fact.now (point_of left) (point_of right)) }
{
    match (left.is_done(), right.is_done()) {
        (true, true) => Ok(Mode::End),
        (true, false) => Ok(Mode::Right),
        (false, true) => Ok(Mode::Left),
        (false, false) => {
            let v = fact.vector(alloc)?;
            mode_by_paths(alloc, a, b, fact, &v, ca.from(left), cb.from(right))
        }
    }
}
