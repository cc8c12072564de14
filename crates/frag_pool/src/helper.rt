//! The helper, which steals from all benches of a pool.
ghost use Rattle.std.specs.Prelude.{◌≡◌, ◌<◌, ℕ, All, vec_len, IfSome, IfNone, IfOk, OnOk};
ghost use Rattle.crossbeam_deque.specs.Handles.{IsPassOf, stealer_deque, stealer_flavor};

use crate::bench::Bench;
use crate::job::Job;
use crate::moves::Gets;
use crate::view::{Law, View};
use crossbeam_deque::{Pass, Steal, Stealer};
use std::alloc::{AllocError, Global};
use std::sync::Wait;

/// A helper's way to one bench.
#[derive(Drop)]
pub struct Thief {
    pub(crate) stealer: Stealer<Job, Global, View, Law>,
    pub(crate) pass: Pass<Job, View>,
    ghost fits: { IsPassOf (stealer_deque stealer) pass },
    ghost first_first: { stealer_flavor stealer ≡ 0 },
}

impl Thief {
    ghost use Rattle.frag_pool.specs.Bench.{stolen_from, IsGot};

    // The next job of the bench. Another thread may be faster: then it looks again.
    fn steal<R: Wait>(&mut self, rt: &R) -> Option<Job>
        ensures got { IfSome result (λ job. IsGot job (stolen_from self.old) (stolen_from self.new)) }
        ensures none { IfNone result (stolen_from self.new ≡ stolen_from self.old) }
    {
        for _ in rt.forever() {
            match self.stealer.steal_as::<Gets>(&mut self.pass) {
                Steal::Success(job) => return Some(job),
                Steal::Empty => break,
                Steal::Retry => {}
            }
        }
        None
    }
}

/// One for each helping thread: a way to each bench of the pool, in the order of the benches.
/// Contracts see which jobs it got of which bench.
#[derive(Drop)]
pub struct Helper {
    pub(crate) thieves: Vec<Thief>,
}

impl Helper {
    ghost use Rattle.frag_pool.specs.Bench.{stolen, helpers, OneMore, IsNewBench, IsNewHelper};

    // A helper that steals from these benches of a pool with helpers.
    pub(crate) fn new(alloc: Global, benches: &mut Vec<Bench>) -> Result<Helper, AllocError>
        requires { All (λ b. 0 < helpers b) benches.old.items }
        ensures new { IfOk result (IsNewHelper (vec_len benches.old)) }
        ensures as_many { OnOk result (vec_len benches.new ≡ vec_len benches.old) }
        ensures benches { OnOk result ((n : ℕ) → All (IsNewBench n) benches.old.items
            → All (IsNewBench n) benches.new.items) }
    {
        let mut thieves = Vec::with_capacity(alloc, benches.len())?;
        for i in 0..benches.len() {
            let thief = benches[i].thief()?;
            thieves.push_reserved(thief);
        }
        Ok(Helper { thieves })
    }

    /// A job of the first bench that has one. None if it found each bench empty in turn. It tries
    /// again after another thread was faster, so that no clause says that it returns.
    pub fn steal<R: Wait>(&mut self, rt: &R) -> Option<Job>
        ensures got { IfSome result (λ job. OneMore job (stolen self.old) (stolen self.new)) }
        ensures none { IfNone result (stolen self.new ≡ stolen self.old) }
    {
        for i in 0..self.thieves.len() {
            if let Some(job) = self.thieves[i].steal(rt) {
                return Some(job);
            }
        }
        None
    }
}
