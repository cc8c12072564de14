//! Which requests may be carried out side by side.
ghost use Rattle.std.specs.Prelude.{◌≡◌, ◌≤◌, ◌&&◌, ℕ, List, not};
ghost use Rattle.nbd_wire.specs.Frames.{Frame};
ghost use Rattle.pipe_session.specs.Waves.{AreWaves, count_of, first_of, is_apart, is_transfer, joins, shares, waves};

use nbd_wire::Ask;
use range_base::{overlap_is_by_ends, overlaps};

/// Whether a request that asks `next` may be taken into a wave of at most `depth` requests that has these already.
pub fn joins(depth: usize, wave: &[Ask], next: Ask) -> bool
    ensures { result ≡ joins depth wave.now next }
{
    is_transfer(next) && wave.len() < depth && is_apart(next, wave)
}

/// The waves of any requests are these requests, in order. Each has 1 to `depth`, and no two of a wave have a sector in
/// common. A wave with a flush or a malformed request has no other one.
pub fn waves_are_the_requests()
    ensures { (sector depth : ℕ) (fs : List Frame) → 1 ≤ depth → AreWaves sector depth fs (waves sector depth fs) }
{}

// Whether a request may be carried out beside each of a wave.
fn is_apart(next: Ask, wave: &[Ask]) -> bool
    ensures { result ≡ is_apart next wave.now }
{
    'asks: for (i, one) in wave.iter().enumerate() {
        if !is_beside(*one, next) {
            return false;
        }
    }
    true
}

// Whether a request may be carried out beside another one.
fn is_beside(one: Ask, next: Ask) -> bool
    ensures { result ≡ (is_transfer one && not (shares one next)) }
{
    is_transfer(one) && !shares(one, next)
}

// Whether it is a read or a write.
pub(crate) fn is_transfer(ask: Ask) -> bool
    ensures { result ≡ is_transfer ask }
{
    match ask {
        Ask::Read { .. } => true,
        Ask::Write { .. } => true,
        Ask::Flush => false,
        Ask::Disconnect => false,
        Ask::Malformed => false,
    }
}

// Whether two requests have a sector in common.
fn shares(one: Ask, other: Ask) -> bool
    ensures { result ≡ shares one other }
{
    let (first, count) = range_of(one);
    let (other_first, other_count) = range_of(other);
    overlap_is_by_ends();
    overlaps(first, count, other_first, other_count)
}

// The sectors of a read or a write: the first, and how many. Any other request has none.
fn range_of(ask: Ask) -> (u64, u64)
    ensures first { result.0 ≡ first_of ask }
    ensures count { result.1 ≡ count_of ask }
{
    match ask {
        Ask::Read { first, count } => (first, count),
        Ask::Write { first, count, fua } => {
            let _ = fua;
            (first, count)
        }
        Ask::Flush => (0, 0),
        Ask::Disconnect => (0, 0),
        Ask::Malformed => (0, 0),
    }
}
