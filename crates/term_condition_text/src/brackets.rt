//! How many brackets are open at once.

ghost use Rattle.std.specs.Prelude.{◌≡◌, ◌<◌, ◌^◌, nat_le};
ghost use Rattle.nf_terms.specs.TermLimits.{depth_limit};
ghost use Rattle.term_text.specs.Brackets.{opens, closes, open_after, most_open, openings};

use nf_terms::limits::DEPTH_LIMIT;

fn opens(b: u8) -> bool
    ensures { result ≡ opens b }
{
    b == b'(' || b == b'[' || b == b'{'
}

fn closes(b: u8) -> bool
    ensures { result ≡ closes b }
{
    b == b')' || b == b']' || b == b'}'
}

// How many are open after a byte.
fn after(now: usize, b: u8) -> usize
    requires { now < 2 ^ 63 }
    ensures { result ≡ open_after now b }
{
    if opens(b) {
        now + 1
    } else if closes(b) {
        now.saturating_sub(1)
    } else {
        now
    }
}

#[tactic(auto, using(crate::proofs::Depths::counted, crate::proofs::Depths::one_at_most))]
fn most_open(bytes: &[u8]) -> usize
    ensures { result ≡ most_open 0 bytes.now }
{
    let mut now = 0usize;
    let mut most = 0usize;
    for b in bytes {
        now = after(now, *b);
        most = most.max(now);
    }
    most
}

// How many brackets are opened in all.
#[tactic(auto, using(crate::proofs::Depths::opened))]
fn openings(bytes: &[u8]) -> usize
    ensures { result ≡ openings bytes.now }
{
    let mut count = 0usize;
    for b in bytes {
        if opens(*b) {
            count += 1;
        }
    }
    count
}

/// Whether at most 64 brackets are open at once.
#[tactic(auto, using(crate::proofs::Depths::no_more_than_openings))]
pub fn is_shallow(bytes: &[u8]) -> bool
    ensures { result ≡ nat_le (most_open 0 bytes.now) depth_limit }
{
    // Most texts have fewer brackets in all, and to count these takes a fraction of the time.
    openings(bytes) <= DEPTH_LIMIT as usize || most_open(bytes) <= DEPTH_LIMIT as usize
}
