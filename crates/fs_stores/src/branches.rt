//! The branch that a store takes.

ghost use Rattle.std.specs.Prelude.{◌≡◌, IsSome, MatchOption, map};
ghost use Rattle.std.specs.Option.{SomeIff};
ghost use Rattle.fs_model.specs.Meaning.{literal_holds};
ghost use Rattle.fs_model.specs.Trees.{literals_hold};
ghost use Rattle.fs_model.specs.Touched.{AllInRange};
ghost use Rattle.fs_model.specs.View.{literal_of, shared_literal_of, branch_of};
ghost use Rattle.fs_stores.specs.Values.{store_from};
ghost use Rattle.fs_stores.specs.Reads.{LiteralFits, touched_by_way, touched_by_branches, taken_branch};

use crate::eval::value_of;
use crate::values::Value;
use fs_model::parts::{Branch, Lit, VarId};
use std::rc::Rc;

// Whether a literal holds, and `None` exactly when a number of it lies outside 128 bits.
fn literal_holds(lit: &Lit<VarId>, values: &[Value]) -> Option<bool>
    ensures { SomeIff result (LiteralFits (literal_of lit.now) (store_from values.now))
        (literal_holds (literal_of lit.now) (store_from values.now)) }
{
    let left = value_of(&lit.left, values)?;
    let right = value_of(&lit.right, values)?;
    Some(lit.rel.holds(left, right))
}

// Whether all literals of a way hold. What comes after one that fails is not looked at.
fn literals_hold(way: &[Rc<Lit<VarId>>], values: &[Value]) -> Option<bool>
    ensures { SomeIff result (AllInRange (touched_by_way (map shared_literal_of way.now) (store_from values.now)))
        (literals_hold (map shared_literal_of way.now) (store_from values.now)) }
{
    for lit in way {
        if !literal_holds(lit, values)? {
            return Some(false);
        }
    }
    Some(true)
}

/// The first branch whose literals all hold, and `None` exactly when a number that is looked at on
/// the way to it lies outside 128 bits.
pub fn taken_branch<'a>(branches: &'a [Branch], values: &[Value]) -> Option<&'a Branch>
    requires { IsSome (taken_branch (map branch_of branches.now) (store_from values.now)) }
    ensures { MatchOption result (¬ AllInRange (touched_by_branches (map branch_of branches.now) (store_from values.now)))
        (λ b. AllInRange (touched_by_branches (map branch_of branches.now) (store_from values.now))
        × (taken_branch (map branch_of branches.now) (store_from values.now) ≡ Some (branch_of b.now))) }
{
    for branch in branches {
        if literals_hold(branch.lits.as_slice(), values)? {
            return Some(branch);
        }
    }
    None
}
