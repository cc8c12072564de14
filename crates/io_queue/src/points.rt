//! The points that writes pass, for tests that hold work at them. Callers 1 to 16 are the clients 0 to 15 of a
//! server, and no other caller passes a point.
//!
//! ```text
//!   512 c + 1         before a fragment of client c's write is enciphered
//!   512 c + 100 + k   right after that, if it is the fragment with the index k
//!   512 c + 2         once the write has ended
//! ```
ghost use Rattle.std.specs.Prelude.{◌≤◌, IfSome};

use vc_outside::Gate;

// How many callers pass points.
const CLIENTS: u64 = 16;

// Passes the points of fragment `index`, of which a write has at most 128.
pub(crate) fn fragment_points<G: Gate>(gate: &G, caller: u64, index: u64) {
    if let Some(first) = first_point(caller) {
        gate.pass(first + 1);
        gate.pass(first + 100 + (index & 0xff) as u32);
    }
}

// Passes the point of a write that has ended.
pub(crate) fn end_point<G: Gate>(gate: &G, caller: u64) {
    if let Some(first) = first_point(caller) {
        gate.pass(first + 2);
    }
}

// The point 512 c of the client c.
fn first_point(caller: u64) -> Option<u32>
    ensures { IfSome result (λ p. p ≤ 8192) }
{
    if caller == 0 || caller > CLIENTS {
        return None;
    }
    Some(512 * (caller - 1) as u32)
}
