//! What is kept of pairs of points, in each case, as long as a search goes on.

use crate::nodes::Standing;
use cert_bisimulation::mode::Mode;
use fs_cut::cover::Point;
use nf_terms::stop::NoMemory;

/// Which machine asks less at a pair of points where both have several open paths.
#[derive(Clone, Copy, PartialEq, Eq)]
pub enum AsksLess {
    /// Nothing has shown it.
    Unknown,
    /// The left one: a left path meets several right ones, and no right path several left ones.
    Left,
    /// The right one.
    Right,
    /// Different things have been shown, or a path of each machine has met several of the other.
    Mixed,
}

impl AsksLess {
    /// What is known after more was shown.
    pub fn and(self, more: AsksLess) -> AsksLess {
        if self == AsksLess::Unknown || self == more {
            more
        } else if more == AsksLess::Unknown {
            self
        } else {
            AsksLess::Mixed
        }
    }
}

/// What is kept of a pair of points in a case: whether a side has had more than one open path there, which machine asks less,
/// where the one open path of a side has led last, and the mode since the table was last cleared.
#[derive(Clone, Copy)]
pub struct Flags {
    pub left: Point,
    pub right: Point,
    pub standing: Standing,
    pub many_left: bool,
    pub many_right: bool,
    pub asks_less: AsksLess,
    pub left_end: Option<Point>,
    pub right_end: Option<Point>,
    pub mode: Option<Mode>,
}

// What is kept of two points of which nothing has been seen.
fn unseen(left: Point, right: Point, standing: Standing) -> Flags {
    Flags {
        left,
        right,
        standing,
        many_left: false,
        many_right: false,
        asks_less: AsksLess::Unknown,
        left_end: None,
        right_end: None,
        mode: None,
    }
}

// Whether this is kept of these points in this case.
fn are_of(flags: &Flags, left: Point, right: Point, case: usize) -> bool {
    flags.standing.case == case && flags.left.is_same(left) && flags.right.is_same(right)
}

/// What is kept of two points in the case of this standing.
pub fn flags_at(all: &[Flags], left: Point, right: Point, standing: Standing) -> Flags {
    for flags in all {
        if are_of(flags, left, right, standing.case) {
            return *flags;
        }
    }
    unseen(left, right, standing)
}

/// Keeps this of two points in a case. The one refusal is out of memory.
pub fn keep(all: &mut Vec<Flags>, flags: Flags) -> Result<(), NoMemory> {
    for old in all.iter_mut() {
        if are_of(old, flags.left, flags.right, flags.standing.case) {
            *old = flags;
            return Ok(());
        }
    }
    Ok(all.push(flags)?)
}

/// Forgets the modes of points in some components and in later ones.
pub fn forget_modes(all: &mut [Flags], standing: Standing) {
    for flags in all.iter_mut() {
        if !flags.standing.is_in_earlier_components(standing) {
            flags.mode = None;
        }
    }
}

/// Forgets all that was kept of points in some components and in later ones.
pub fn forget_all(all: &mut [Flags], standing: Standing) {
    for flags in all.iter_mut() {
        if !flags.standing.is_in_earlier_components(standing) {
            *flags = unseen(flags.left, flags.right, flags.standing);
        }
    }
}
