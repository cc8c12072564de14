//! What a pass of a deque knows, and the rule of a deque.
use crate::job::Job;
use crossbeam_deque::protocol::Protocol;
use std::collections::LinkedList;

/// A job that was got, with its place among all that were pushed, counted from 0. No value of it is made.
pub struct Won {
    pub place: u64,
    pub job: Job,
}

/// What a pass of one deque knows. No value of it is made: it exists in clauses alone, where its numbers
/// have no limit.
pub struct View {
    /// It is the bench's own pass.
    pub owns: bool,
    /// No other pass was made.
    pub alone: bool,
    /// All jobs that were pushed, in their order. Empty for a helper's pass.
    pub pushed: LinkedList<Job>,
    /// What this pass got, in its order.
    pub got: LinkedList<Won>,
}

/// The rule of a deque.
pub struct Law;

impl Protocol<Job, View> for Law {
    ghost use Rattle.frag_pool.specs.Deque.{Kept, owner, thief};

    ghost holds = { Kept };

    ghost first = { owner };

    ghost guest = { thief };
}
