//! A thread's token.
ghost use Rattle.std.specs.Prelude.{◌≡◌, true, []};

use crate::view::View;
use atomic_table::Seat;

/// A thread's token for one word. Clauses see what it knows as `view runner.seat`, which only a step on the word
/// changes.
#[derive(Drop)]
pub struct Runner<R> {
    pub(crate) seat: Seat<(), View<R>>,
    ghost carries: { seat.me.1 ≡ [] },
    ghost live: { seat.me.0.live ≡ true },
}
