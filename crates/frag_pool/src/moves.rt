//! What each step on a deque tells the pass that takes it.
use crate::job::Job;
use crate::view::View;
use crossbeam_deque::protocol::{Outcome, Split};

/// A job is pushed.
pub struct Pushes;

impl Outcome<Job, View> for Pushes {
    ghost use Rattle.frag_pool.specs.Laws.Moves.{pushing};

    ghost then = { pushing };
}

/// A job is taken by the bench, or stolen by a helper.
pub struct Gets;

impl Outcome<Job, View> for Gets {
    ghost use Rattle.frag_pool.specs.Laws.Moves.{Getting};
    ghost use Rattle.frag_pool.specs.Deque.{AllGot};
    ghost use Rattle.std.specs.Prelude.{◌≡◌, true};

    ghost then = { Getting };

    ghost empty = { λ v. v.owns ≡ true → v.alone ≡ true → AllGot v.pushed v.got };
}

/// A pass is made for a helper.
pub struct Admits;

impl Split<View> for Admits {
    ghost use Rattle.frag_pool.specs.Laws.Moves.{in_company};
    ghost use Rattle.frag_pool.specs.Deque.{thief};

    ghost left = { in_company };

    ghost right = { λ _. thief };
}
